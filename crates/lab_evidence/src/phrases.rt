//! Fixed texts of a page.

ghost use Rattle.std.specs.Prelude.{◌≡◌};
ghost use Rattle.lab_evidence.specs.Phrases.{transactions_caption, rows_caption};

/// What stands above the transactions.
#[tactic(auto, unfolding(crate::specs::Phrases::transactions_caption))]
pub fn transactions_caption() -> &'static [u8]
    ensures { result.now ≡ transactions_caption }
{
    b" T2.1 is statement 1 of T2. Saw: which versions a statement saw; a row that isn't named was seen as it was at first. Listed: the rows that it found, each as (row, value). Wrote: the rows that it changed, as (row, value), or absent behind a delete. Bold is what is in question.</caption>\n<thead><tr><th scope=\"col\">No.</th><th scope=\"col\">Statement</th><th scope=\"col\">Saw</th><th scope=\"col\">Listed</th><th scope=\"col\">Wrote</th></tr></thead>\n"
}

/// What stands above the rows.
#[tactic(auto, unfolding(crate::specs::Phrases::rows_caption))]
pub fn rows_caption() -> &'static [u8]
    ensures { result.now ≡ rows_caption }
{
    b" The versions of each row, in the order in which committed transactions installed them. Bold are the rows in question.</caption>\n<thead><tr><th scope=\"col\">Row</th><th scope=\"col\">Versions</th><th scope=\"col\">In the end</th></tr></thead>\n<tbody>\n"
}
