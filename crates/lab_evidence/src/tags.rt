//! The tags of a page, with the words in them, before the texts that stand in it.

ghost use Rattle.std.specs.Prelude.{◌≡◌};
ghost use Rattle.lab_evidence.specs.Tags.{cell_open, name_open, saw_open, listed_open, wrote_open, end_open, count_open, note_open, untold_open, txn_head, line_close, head_close, rows_close};

/// What stands before a statement, and before the versions of a row.
#[tactic(auto, unfolding(crate::specs::Tags::cell_open))]
pub fn cell_open() -> &'static [u8]
    ensures { result.now ≡ cell_open }
{
    b"<td class=\"m\">"
}

/// What stands before the name of a line.
#[tactic(auto, unfolding(crate::specs::Tags::name_open))]
pub fn name_open() -> &'static [u8]
    ensures { result.now ≡ name_open }
{
    b"<th scope=\"row\" class=\"m\">"
}

/// What stands before what was seen.
#[tactic(auto, unfolding(crate::specs::Tags::saw_open))]
pub fn saw_open() -> &'static [u8]
    ensures { result.now ≡ saw_open }
{
    b"<td class=\"m\" data-l=\"saw\">"
}

/// What stands before what was listed.
#[tactic(auto, unfolding(crate::specs::Tags::listed_open))]
pub fn listed_open() -> &'static [u8]
    ensures { result.now ≡ listed_open }
{
    b"<td class=\"m\" data-l=\"listed\">"
}

/// What stands before what was written.
#[tactic(auto, unfolding(crate::specs::Tags::wrote_open))]
pub fn wrote_open() -> &'static [u8]
    ensures { result.now ≡ wrote_open }
{
    b"<td class=\"m\" data-l=\"wrote\">"
}

/// What stands before how a row is in the end.
#[tactic(auto, unfolding(crate::specs::Tags::end_open))]
pub fn end_open() -> &'static [u8]
    ensures { result.now ≡ end_open }
{
    b"<td class=\"m\" data-l=\"in the end\">"
}

/// What stands before how many entries there are.
#[tactic(auto, unfolding(crate::specs::Tags::count_open))]
pub fn count_open() -> &'static [u8]
    ensures { result.now ≡ count_open }
{
    b"<span class=\"e\">of "
}

/// What stands before what is asked of an operation.
#[tactic(auto, unfolding(crate::specs::Tags::note_open))]
pub fn note_open() -> &'static [u8]
    ensures { result.now ≡ note_open }
{
    b" <span class=\"note\">"
}

/// What stands before how many statements there are.
#[tactic(auto, unfolding(crate::specs::Tags::untold_open))]
pub fn untold_open() -> &'static [u8]
    ensures { result.now ≡ untold_open }
{
    b"<tr><td colspan=\"5\">Of "
}

/// What stands before the number of a transaction.
#[tactic(auto, unfolding(crate::specs::Tags::txn_head))]
pub fn txn_head() -> &'static [u8]
    ensures { result.now ≡ txn_head }
{
    b"<tbody>\n<tr class=\"t\" id=\"t"
}

/// The end of a line and of its last cell.
#[tactic(auto, unfolding(crate::specs::Tags::line_close))]
pub fn line_close() -> &'static [u8]
    ensures { result.now ≡ line_close }
{
    b"</td></tr>\n"
}

/// The end of a head and of its line.
#[tactic(auto, unfolding(crate::specs::Tags::head_close))]
pub fn head_close() -> &'static [u8]
    ensures { result.now ≡ head_close }
{
    b"</th></tr>\n"
}

/// What stands behind the rows.
#[tactic(auto, unfolding(crate::specs::Tags::rows_close))]
pub fn rows_close() -> &'static [u8]
    ensures { result.now ≡ rows_close }
{
    b"</tbody>\n</table>\n</section>\n"
}
