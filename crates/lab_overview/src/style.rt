//! The style of a page: the same in all.

ghost use Rattle.std.specs.Prelude.{◌≡◌, ◌++◌, OnOk};
ghost use Rattle.lab_overview.specs.Style.{letters_style, tiles_style, parts_style, tables_style, narrow_style, paper_style, steps_style, screen_style, style_text};

use lab_table::NoMemory;

/// Letters and paragraphs.
#[tactic(auto, unfolding(crate::specs::Style::letters_style))]
fn letters_style() -> &'static [u8]
    ensures { result.now ≡ letters_style }
{
    b"\
:root{color-scheme:light dark;--line:#888}\n\
*{box-sizing:border-box}\n\
body{font:1rem/1.5 system-ui,sans-serif;max-width:76rem;margin:0 auto;padding:1.5rem 1rem 4rem}\n\
h1{font-size:1.9rem;line-height:1.2;margin:0 0 .5rem;overflow-wrap:anywhere}\n\
h2{font-size:1.25rem;line-height:1.2;margin:3rem 0 .75rem;border-top:3px solid;padding-top:.6rem}\n\
p,ol{max-width:46rem;margin:.5rem 0;overflow-wrap:anywhere}\n\
a{color:inherit;text-underline-offset:.15em;text-decoration-thickness:1px}\n\
code,pre,.m{font-family:ui-monospace,monospace;font-size:.875em}\n\
nav a{margin-right:1rem}\n\
.lede{font-size:1.125rem}\n\
.order{max-height:12rem;overflow:auto}\n\
summary{cursor:pointer}\n\
"
}

/// The four tiles.
#[tactic(auto, unfolding(crate::specs::Style::tiles_style))]
fn tiles_style() -> &'static [u8]
    ensures { result.now ≡ tiles_style }
{
    b"\
.v{display:grid;grid-template-columns:repeat(4,1fr);gap:.75rem;margin:1.25rem 0 .75rem;padding:0;list-style:none}\n\
.v li{border:1px solid var(--line);padding:.6rem .8rem;font-size:.875rem}\n\
.v .no{border:4px solid;padding:calc(.6rem - 3px) calc(.8rem - 3px)}\n\
.v b{display:block;font-size:1.125rem}\n\
"
}

/// Parts: sentences beside a picture, steps, and texts in boxes.
#[tactic(auto, unfolding(crate::specs::Style::parts_style))]
fn parts_style() -> &'static [u8]
    ensures { result.now ≡ parts_style }
{
    b"\
.why{display:flex;flex-wrap:wrap;gap:1.5rem 2.5rem;align-items:flex-start}\n\
.why div{flex:1 1 24rem;min-width:0}\n\
figure,details{margin:0;max-width:100%}\n\
figcaption,caption{font-size:.875rem;text-align:left;padding:.4rem 0;max-width:46rem}\n\
.wide{overflow:auto;max-width:100%}\n\
.wide:focus-visible,a:focus-visible,summary:focus-visible{outline:3px solid;outline-offset:2px}\n\
svg{display:block}\n\
.steps{list-style:none;padding:0}\n\
.steps li{padding:.6rem .8rem;border-left:3px solid var(--line);margin:0 0 .75rem}\n\
.chain,.note{font-size:.875rem}\n\
pre{white-space:pre-wrap;overflow-wrap:anywhere;border:1px solid var(--line);padding:.8rem;margin:.5rem 0;max-height:28rem;overflow:auto}\n\
"
}

/// Tables.
#[tactic(auto, unfolding(crate::specs::Style::tables_style))]
fn tables_style() -> &'static [u8]
    ensures { result.now ≡ tables_style }
{
    b"\
table{border-collapse:collapse;width:100%}\n\
th,td{text-align:left;vertical-align:top;padding:.35rem .8rem .35rem 0;border-top:1px solid var(--line);overflow-wrap:anywhere;font-weight:400}\n\
thead th{border-top:0;font-size:.875rem;font-weight:700;overflow-wrap:normal}\n\
.here th,.here td{border-top:3px solid;border-bottom:3px solid;font-weight:700}\n\
.t th{font-weight:700;border-top:3px solid;padding-top:.6rem}\n\
td.m,th.m{font-size:.8125rem}\n\
th.m{white-space:nowrap}\n\
.b,.b th,.b td,tr[class*=s] th{font-weight:700}\n\
.e,.note{display:block}\n\
.note{font-family:system-ui,sans-serif}\n\
"
}

/// Narrow screens: a table's lines stand below one another, with words before their cells.
#[tactic(auto, unfolding(crate::specs::Style::narrow_style))]
fn narrow_style() -> &'static [u8]
    ensures { result.now ≡ narrow_style }
{
    b"\
@media screen and (max-width:47rem){\n\
h1{font-size:1.5rem}\n\
.v{grid-template-columns:1fr 1fr}\n\
.s thead{position:absolute;clip-path:inset(50%);height:1px;width:1px;overflow:hidden}\n\
.s tr,.s th,.s td{display:block;border:0;padding:0 0 .1rem}\n\
.s tr{border-top:1px solid var(--line);padding:.4rem 0}\n\
.s tr.t{border-top:3px solid}\n\
.s td:empty{display:none}\n\
.s td[data-l]::before{font:.8125rem system-ui,sans-serif;content:attr(data-l) ' '}\n\
.s .e{display:inline}\n\
.s .e + .e::before{content:'; '}\n\
}\n\
"
}

/// Paper: no folds, no links.
#[tactic(auto, unfolding(crate::specs::Style::paper_style))]
fn paper_style() -> &'static [u8]
    ensures { result.now ≡ paper_style }
{
    b"\
@media print{\n\
:root{color-scheme:light}\n\
@page{margin:14mm}\n\
body{padding:0;font-size:10pt;max-width:none}\n\
nav,details,section:has(h2 + details){display:none}\n\
h2{margin-top:1.5rem}\n\
h2,caption,thead,.t{break-after:avoid}\n\
tr,li,figure,pre,caption{break-inside:avoid}\n\
td.m,th.m{font-size:8pt}\n\
.e{white-space:nowrap}\n\
.why{display:block}\n\
.wide,pre,.order{overflow:visible;max-height:none}\n\
svg{max-width:100%;height:auto}\n\
a{text-decoration:none}\n\
}\n\
"
}

/// Pointing at a step, or going to it, marks its lines in the tables and its boxes and its arrow in the picture.
#[tactic(auto, unfolding(crate::specs::Style::steps_style))]
fn steps_style() -> &'static [u8]
    ensures { result.now ≡ steps_style }
{
    b"\
:root:has(#s0:is(:hover,:focus-within,:target)) :is(.s0,.p-0),\n\
:root:has(#s1:is(:hover,:focus-within,:target)) :is(.s1,.p-1),\n\
:root:has(#s2:is(:hover,:focus-within,:target)) :is(.s2,.p-2),\n\
:root:has(#s3:is(:hover,:focus-within,:target)) :is(.s3,.p-3),\n\
:root:has(#s4:is(:hover,:focus-within,:target)) :is(.s4,.p-4),\n\
:root:has(#s5:is(:hover,:focus-within,:target)) :is(.s5,.p-5),\n\
:root:has(#s6:is(:hover,:focus-within,:target)) :is(.s6,.p-6),\n\
:root:has(#s7:is(:hover,:focus-within,:target)) :is(.s7,.p-7),\n\
:root:has(#s8:is(:hover,:focus-within,:target)) :is(.s8,.p-8),\n\
:root:has(#s9:is(:hover,:focus-within,:target)) :is(.s9,.p-9),\n\
:root:has(#s10:is(:hover,:focus-within,:target)) :is(.s10,.p-10),\n\
:root:has(#s11:is(:hover,:focus-within,:target)) :is(.s11,.p-11),\n\
:root:has(#s12:is(:hover,:focus-within,:target)) :is(.s12,.p-12),\n\
:root:has(#s13:is(:hover,:focus-within,:target)) :is(.s13,.p-13),\n\
:root:has(#s14:is(:hover,:focus-within,:target)) :is(.s14,.p-14),\n\
:root:has(#s15:is(:hover,:focus-within,:target)) :is(.s15,.p-15),\n\
:root:has(#s16:is(:hover,:focus-within,:target)) :is(.s16,.p-16),\n\
:root:has(#s17:is(:hover,:focus-within,:target)) :is(.s17,.p-17),\n\
:root:has(#s18:is(:hover,:focus-within,:target)) :is(.s18,.p-18),\n\
:root:has(#s19:is(:hover,:focus-within,:target)) :is(.s19,.p-19),\n\
:root:has(#s20:is(:hover,:focus-within,:target)) :is(.s20,.p-20){outline:3px solid;outline-offset:-1px;stroke-width:5}\n\
svg *{outline:0!important}\n\
.steps li:is(:hover,:focus-within,:target){border-left-width:8px;padding-left:calc(.8rem - 5px);border-color:currentColor}\n\
"
}

/// Appends the style on a screen.
#[tactic(auto, unfolding(crate::specs::Style::screen_style))]
fn put_screen_style(out: &mut Vec<u8>) -> Result<(), NoMemory>
    ensures { OnOk result (out.new.items ≡ out.old.items ++ screen_style) }
{
    out.extend_from_slice(letters_style())?;
    out.extend_from_slice(tiles_style())?;
    out.extend_from_slice(parts_style())?;
    out.extend_from_slice(tables_style())
}

/// Appends the style.
#[tactic(auto, unfolding(crate::specs::Style::style_text))]
pub fn put_style(out: &mut Vec<u8>) -> Result<(), NoMemory>
    ensures { OnOk result (out.new.items ≡ out.old.items ++ style_text) }
{
    put_screen_style(out)?;
    out.extend_from_slice(narrow_style())?;
    out.extend_from_slice(paper_style())?;
    out.extend_from_slice(steps_style())
}
