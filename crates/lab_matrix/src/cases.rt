//! The cases, as they are listed.

ghost use Rattle.std.specs.Prelude.{◌≡◌, IfOk};
ghost use Rattle.lab_matrix.specs.Listings.{usual_setup, g0_lines, g1a_lines, g1b_lines, g1c_lines, otv_lines, pmp_lines, p4_lines, g_single_lines, g2_item_lines, g2_lines};

use crate::parts::{Listed, Listing, equals, insert, leaves, select, session, set_one};
use lab_script::Script;
use lab_table::{Col, Command, NoMemory};
use std::alloc::Global;

macro_rules! number_of {
    (T1) => { 1 };
    (T2) => { 2 };
    (T3) => { 3 };
}

macro_rules! col {
    (id) => { Col::Id };
    (value) => { Col::Value };
}

macro_rules! pred {
    ($alloc:ident; $col:ident = $number:literal) => { equals(col!($col), $number) };
    ($alloc:ident; $col:ident % $modulus:literal = $rest:literal) => {
        leaves(col!($col), $modulus, $rest)
    };
    ($alloc:ident; $col:ident in ($($number:literal),*)) => {
        Listed::new($alloc)$(.with($number)?)*.has(col!($col))
    };
}

macro_rules! command {
    ($alloc:ident; begin) => { Command::Begin };
    ($alloc:ident; commit) => { Command::Commit };
    ($alloc:ident; abort) => { Command::Abort };
    ($alloc:ident; select) => { select(None) };
    ($alloc:ident; select where $($pred:tt)+) => { select(Some(pred!($alloc; $($pred)+))) };
    ($alloc:ident; update $id:literal => $value:literal) => { set_one($id, $value) };
    ($alloc:ident; insert $id:literal => $value:literal) => { insert($id, $value) };
}

/// A listing: for each line a session and its command.
macro_rules! case {
    ($alloc:ident; $($session:ident $verb:ident
        $($id:literal => $value:literal)?
        $(where $col:ident $op:tt $first:tt $(= $second:tt)?)?;)*) => {
        Listing::new($alloc)
            $(.with(
                session(number_of!($session)),
                command!($alloc; $verb $($id => $value)? $(where $col $op $first $(= $second)?)?),
            )?)*
            .script($alloc)
    };
}

/// Two transactions write the same two rows in turn.
pub(crate) fn g0(alloc: Global) -> Result<Script, NoMemory>
    ensures { IfOk result (λ script. script ≡ record { setup = usual_setup; lines = g0_lines }) }
{
    case!(alloc;
        T1 begin;
        T2 begin;
        T1 update 1 => 11;
        T2 update 1 => 12;
        T1 update 2 => 21;
        T1 commit;
        T2 update 2 => 22;
        T2 commit;
    )
}

/// The second one reads before and after the first one's abort.
pub(crate) fn g1a(alloc: Global) -> Result<Script, NoMemory>
    ensures { IfOk result (λ script. script ≡ record { setup = usual_setup; lines = g1a_lines }) }
{
    case!(alloc;
        T1 begin;
        T2 begin;
        T1 update 1 => 101;
        T2 select;
        T1 abort;
        T2 select;
        T2 commit;
    )
}

/// The second one reads between the first one's two writes of a row, and after its commit.
pub(crate) fn g1b(alloc: Global) -> Result<Script, NoMemory>
    ensures { IfOk result (λ script. script ≡ record { setup = usual_setup; lines = g1b_lines }) }
{
    case!(alloc;
        T1 begin;
        T2 begin;
        T1 update 1 => 101;
        T2 select;
        T1 update 1 => 11;
        T1 commit;
        T2 select;
        T2 commit;
    )
}

/// Each reads the row that the other one has written.
pub(crate) fn g1c(alloc: Global) -> Result<Script, NoMemory>
    ensures { IfOk result (λ script. script ≡ record { setup = usual_setup; lines = g1c_lines }) }
{
    case!(alloc;
        T1 begin;
        T2 begin;
        T1 update 1 => 11;
        T2 update 2 => 22;
        T1 select where id = 2;
        T2 select where id = 1;
        T1 commit;
        T2 commit;
    )
}

/// The third one reads two rows while the second one overwrites what the first one wrote to both.
pub(crate) fn otv(alloc: Global) -> Result<Script, NoMemory>
    ensures { IfOk result (λ script. script ≡ record { setup = usual_setup; lines = otv_lines }) }
{
    case!(alloc;
        T1 begin;
        T2 begin;
        T3 begin;
        T1 update 1 => 11;
        T1 update 2 => 19;
        T2 update 1 => 12;
        T1 commit;
        T3 select where id = 1;
        T2 update 2 => 18;
        T3 select where id = 2;
        T2 commit;
        T3 select where id = 2;
        T3 select where id = 1;
        T3 commit;
    )
}

/// The second one inserts a row between the first one's reads by predicates that match it.
pub(crate) fn pmp(alloc: Global) -> Result<Script, NoMemory>
    ensures { IfOk result (λ script. script ≡ record { setup = usual_setup; lines = pmp_lines }) }
{
    case!(alloc;
        T1 begin;
        T2 begin;
        T1 select where value = 30;
        T2 insert 3 => 30;
        T2 commit;
        T1 select where value % 3 = 0;
        T1 commit;
    )
}

/// Both read a row, and then both write it.
pub(crate) fn p4(alloc: Global) -> Result<Script, NoMemory>
    ensures { IfOk result (λ script. script ≡ record { setup = usual_setup; lines = p4_lines }) }
{
    case!(alloc;
        T1 begin;
        T2 begin;
        T1 select where id = 1;
        T2 select where id = 1;
        T1 update 1 => 11;
        T2 update 1 => 11;
        T1 commit;
        T2 commit;
    )
}

/// The first one reads a row before and the other row after the second one writes both.
pub(crate) fn g_single(alloc: Global) -> Result<Script, NoMemory>
    ensures { IfOk result (λ script. script ≡ record { setup = usual_setup; lines = g_single_lines }) }
{
    case!(alloc;
        T1 begin;
        T2 begin;
        T1 select where id = 1;
        T2 select where id = 1;
        T2 select where id = 2;
        T2 update 1 => 12;
        T2 update 2 => 18;
        T2 commit;
        T1 select where id = 2;
        T1 commit;
    )
}

/// Each reads both rows, and writes one of them.
pub(crate) fn g2_item(alloc: Global) -> Result<Script, NoMemory>
    ensures { IfOk result (λ script. script ≡ record { setup = usual_setup; lines = g2_item_lines }) }
{
    case!(alloc;
        T1 begin;
        T2 begin;
        T1 select where id in (1, 2);
        T2 select where id in (1, 2);
        T1 update 1 => 11;
        T2 update 2 => 21;
        T1 commit;
        T2 commit;
    )
}

/// Each reads by a predicate, and inserts a row that matches it.
pub(crate) fn g2(alloc: Global) -> Result<Script, NoMemory>
    ensures { IfOk result (λ script. script ≡ record { setup = usual_setup; lines = g2_lines }) }
{
    case!(alloc;
        T1 begin;
        T2 begin;
        T1 select where value % 3 = 0;
        T2 select where value % 3 = 0;
        T1 insert 3 => 30;
        T2 insert 4 => 42;
        T1 commit;
        T2 commit;
    )
}
