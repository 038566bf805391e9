//! The tags of a page, with the words in them, before the texts that stand in it.

ghost use Rattle.std.specs.Prelude.{◌≡◌};
ghost use Rattle.lab_page.specs.Tags.{opening_open, steps_open, chain_open, why_head, sentences_open, row_open, versions_open, sentences_close, why_close};

/// What stands before the first sentence.
#[tactic(auto, unfolding(crate::specs::Tags::opening_open))]
pub fn opening_open() -> &'static [u8]
    ensures { result.now ≡ opening_open }
{
    b"<p id=\"s0\" class=\"order\" tabindex=\"0\">"
}

/// What stands before steps.
#[tactic(auto, unfolding(crate::specs::Tags::steps_open))]
pub fn steps_open() -> &'static [u8]
    ensures { result.now ≡ steps_open }
{
    b"<ol class=\"steps\">\n"
}

/// What stands before the versions of a step's row.
#[tactic(auto, unfolding(crate::specs::Tags::chain_open))]
pub fn chain_open() -> &'static [u8]
    ensures { result.now ≡ chain_open }
{
    b"\n<p class=\"chain\">"
}

/// What stands before the heading of why.
#[tactic(auto, unfolding(crate::specs::Tags::why_head))]
pub fn why_head() -> &'static [u8]
    ensures { result.now ≡ why_head }
{
    b"<section aria-labelledby=\"why\">\n<h2 id=\"why\">"
}

/// What stands behind that heading, before the sentences.
#[tactic(auto, unfolding(crate::specs::Tags::sentences_open))]
pub fn sentences_open() -> &'static [u8]
    ensures { result.now ≡ sentences_open }
{
    b"</h2>\n<div class=\"why\">\n<div>\n"
}

/// What stands before the row of a step.
#[tactic(auto, unfolding(crate::specs::Tags::row_open))]
pub fn row_open() -> &'static [u8]
    ensures { result.now ≡ row_open }
{
    b"; row "
}

/// What stands before its versions.
#[tactic(auto, unfolding(crate::specs::Tags::versions_open))]
pub fn versions_open() -> &'static [u8]
    ensures { result.now ≡ versions_open }
{
    b", version by version: "
}

/// What stands behind the sentences.
#[tactic(auto, unfolding(crate::specs::Tags::sentences_close))]
pub fn sentences_close() -> &'static [u8]
    ensures { result.now ≡ sentences_close }
{
    b"</div>\n"
}

/// What stands behind the picture.
#[tactic(auto, unfolding(crate::specs::Tags::why_close))]
pub fn why_close() -> &'static [u8]
    ensures { result.now ≡ why_close }
{
    b"</div>\n</section>\n"
}
