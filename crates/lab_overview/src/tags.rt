//! The tags of a page, with the words in them, before the texts that stand in it.

ghost use Rattle.std.specs.Prelude.{◌≡◌};
ghost use Rattle.lab_overview.specs.Tags.{title_open, lede_open, counts_open, finding_open, forbidden_open, check_head, report_head, history_head, file_open, counts_between, counts_close, page_close};

/// What stands before what the user says of the page.
#[tactic(auto, unfolding(crate::specs::Tags::title_open))]
pub fn title_open() -> &'static [u8]
    ensures { result.now ≡ title_open }
{
    b"<p class=\"of\">"
}

/// What stands before the sentence of the verdict.
#[tactic(auto, unfolding(crate::specs::Tags::lede_open))]
pub fn lede_open() -> &'static [u8]
    ensures { result.now ≡ lede_open }
{
    b"<p class=\"lede\">"
}

/// What stands before how many transactions there are.
#[tactic(auto, unfolding(crate::specs::Tags::counts_open))]
pub fn counts_open() -> &'static [u8]
    ensures { result.now ≡ counts_open }
{
    b"<p>Judged by <code>hermitage_lab</code>. Transactions: "
}

/// What stands before what is found of a phenomenon.
#[tactic(auto, unfolding(crate::specs::Tags::finding_open))]
pub fn finding_open() -> &'static [u8]
    ensures { result.now ≡ finding_open }
{
    b"<tr><th scope=\"row\">"
}

/// What stands before the lowest level that forbids it.
#[tactic(auto, unfolding(crate::specs::Tags::forbidden_open))]
pub fn forbidden_open() -> &'static [u8]
    ensures { result.now ≡ forbidden_open }
{
    b"</td><td data-l=\"forbidden from\">"
}

/// What stands before how the verdict is checked.
#[tactic(auto, unfolding(crate::specs::Tags::check_head))]
pub fn check_head() -> &'static [u8]
    ensures { result.now ≡ check_head }
{
    b"<section aria-labelledby=\"check\">\n<h2 id=\"check\">Check it by hand</h2>\n"
}

/// What stands before the report.
#[tactic(auto, unfolding(crate::specs::Tags::report_head))]
pub fn report_head() -> &'static [u8]
    ensures { result.now ≡ report_head }
{
    b"<section aria-labelledby=\"report\">\n<h2 id=\"report\">The report</h2>\n<pre tabindex=\"0\">"
}

/// What stands before the history.
#[tactic(auto, unfolding(crate::specs::Tags::history_head))]
pub fn history_head() -> &'static [u8]
    ensures { result.now ≡ history_head }
{
    b"<section aria-labelledby=\"history\">\n<h2 id=\"history\">The history</h2>\n"
}

/// What stands before a file.
#[tactic(auto, unfolding(crate::specs::Tags::file_open))]
pub fn file_open() -> &'static [u8]
    ensures { result.now ≡ file_open }
{
    b"<details>\n<summary>All that was judged, as JSON</summary>\n<pre tabindex=\"0\">"
}

/// What stands before how many of them committed.
#[tactic(auto, unfolding(crate::specs::Tags::counts_between))]
pub fn counts_between() -> &'static [u8]
    ensures { result.now ≡ counts_between }
{
    b", of which "
}

/// What stands behind that.
#[tactic(auto, unfolding(crate::specs::Tags::counts_close))]
pub fn counts_close() -> &'static [u8]
    ensures { result.now ≡ counts_close }
{
    b" committed.</p>\n"
}

/// What stands behind the history: the end of the page.
#[tactic(auto, unfolding(crate::specs::Tags::page_close))]
pub fn page_close() -> &'static [u8]
    ensures { result.now ≡ page_close }
{
    b"</section>\n</main>\n</body>\n</html>\n"
}
