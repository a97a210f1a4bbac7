//! How a page looks: on a screen, a phone and paper, light and dark.

ghost use Rattle.std.specs.Prelude.{◌≡◌, ◌++◌, OnOk};
ghost use Rattle.report_page.specs.Style.{style_text, word_if};

use crate::labels::{has_title, title};
use crate::pieces::{PagePiece, push_pieces};
use league::League;
use std::alloc::AllocError;

/// Adds the page up to the number of teams, which its lines of style take from it: with the league's name, if it has one, and moved
/// games, if boards begin at a given schedule.
pub(crate) fn push_style(page: &mut Vec<u8>, league: &League) -> Result<(), AllocError>
    ensures { OnOk result (page.new.items ≡ page.old.items ++ style_text league.now) }
{
    push_pieces(
        page,
        &[
            PagePiece::Raw(b"<!DOCTYPE html>\n"),
            PagePiece::Raw(b"<html lang='en'><head><meta charset='utf-8'><title>"),
            PagePiece::Name(title(league)),
            PagePiece::Raw(word_if(has_title(league), b": ")),
            PagePiece::Raw(b"Schedule</title>\n"),
            PagePiece::Raw(
                b"<meta name='viewport' content='width=device-width, initial-scale=1'><style>\n",
            ),
            PagePiece::Raw(
                b":root { color-scheme: light dark; --back: #fff; --text: #1c1d21; --pale: #5d6168; --line: #d3d6db }\n",
            ),
            PagePiece::Raw(b":root { --home: #dbe9fa; --bad: #b3261e; --bar: #3f7fbf }\n"),
            PagePiece::Raw(
                b"@media (prefers-color-scheme: dark) { :root { --back: #17191d; --text: #e5e6e9; --pale: #a3a7ae }\n",
            ),
            PagePiece::Raw(
                b":root { --line: #3c4048; --home: #20405f; --bad: #ff8a80; --bar: #6aa9e9 } }\n",
            ),
            PagePiece::Raw(
                b"body { margin: 0 auto; padding: 1rem; max-width: 100rem; font: 1rem/1.4 sans-serif }\n",
            ),
            PagePiece::Raw(
                b"body { background: var(--back); color: var(--text) } p { margin: 0 0 .5rem; color: var(--pale) }\n",
            ),
            PagePiece::Raw(
                b"h1 { font-size: 1.4rem } h2 { font-size: 1.15rem; margin: 1.5rem 0 .3rem }\n",
            ),
            PagePiece::Raw(
                b"ul { display: flex; flex-wrap: wrap; gap: .5rem; margin: 0; padding: 0; list-style: none }\n",
            ),
            PagePiece::Raw(
                b"li { border: 1px solid var(--line); border-radius: .4rem; padding: .3rem .7rem }\n",
            ),
            PagePiece::Raw(
                b"table { border-collapse: collapse; font-variant-numeric: tabular-nums }\n",
            ),
            PagePiece::Raw(
                b"th, td { border: 1px solid var(--line); padding: .15rem .45rem; text-align: right }\n",
            ),
            PagePiece::Raw(
                b"th:first-child { text-align: left } .wide { overflow-x: auto } p span { padding: .1rem .4rem }\n",
            ),
            PagePiece::Raw(
                b".wide th:first-child { position: sticky; left: 0; z-index: 1; background: var(--back) }\n",
            ),
            PagePiece::Raw(
                b".wide th:first-child { max-width: min(12em, 30vw); overflow: hidden; white-space: nowrap }\n",
            ),
            PagePiece::Raw(b".wide th:first-child { text-overflow: ellipsis }\n"),
            PagePiece::Raw(
                b".grid { font-size: clamp(.65rem, 76rem / (var(--rounds) * 2.7 + 12.5), 1rem) }\n",
            ),
            PagePiece::Raw(
                b".grid th, .grid td { padding: .15em clamp(.15em, (62em / var(--rounds) - 2.4em) / 2, .45em) }\n",
            ),
            PagePiece::Raw(
                b".travel th { min-width: min(12rem, 30vw); overflow-wrap: anywhere }\n",
            ),
            PagePiece::Raw(
                b".h { background: var(--home) } .o { box-shadow: inset 0 0 0 .12em var(--bad) }\n",
            ),
            PagePiece::Raw(b".r { outline: .12em dashed var(--bad); outline-offset: -.25em }\n"),
            PagePiece::Raw(b".b { border-bottom: .15em solid var(--bad) }\n"),
            PagePiece::Raw(
                b".rules { display: block; overflow-x: auto } .rules td { white-space: nowrap }\n",
            ),
            PagePiece::Raw(
                b".rules tr > :last-child { min-width: min(20rem, 60vw); text-align: left; white-space: normal }\n",
            ),
            PagePiece::Raw(b".rules td:last-child { font-weight: normal }\n"),
            PagePiece::Raw(
                b".rounds { columns: 14rem } section { break-inside: avoid; padding-top: .5rem } h3 { font-size: 1rem; margin: 0 0 .1rem }\n",
            ),
            PagePiece::Raw(
                b".bad { color: var(--bad); font-weight: bold } .travel { width: 100% } .bar { width: 100%; padding: 0 }\n",
            ),
            PagePiece::Raw(
                b".bar { background: linear-gradient(var(--line), var(--line)) 50% / 1px 100% no-repeat }\n",
            ),
            PagePiece::Raw(
                b".bar div { width: calc(100% * var(--tour) * var(--teams) / (2 * var(--travel))) }\n",
            ),
            PagePiece::Raw(b".bar div { height: .8em; max-width: 100%; background: var(--bar) }\n"),
            PagePiece::Raw(
                b"@media print { @page { size: landscape; margin: 10mm } * { print-color-adjust: exact }\n",
            ),
            PagePiece::Raw(
                b".wide, .rules { overflow: visible } body { padding: 0; font-size: 10pt } tr { break-inside: avoid }\n",
            ),
            PagePiece::Raw(b".grid { font-size: min(10pt, 270mm / (var(--rounds) * 2.4 + 12)) }\n"),
            PagePiece::Raw(b".grid th, .grid td { padding: .05em .1em; min-width: 2em } }\n"),
            PagePiece::Raw(word_if(
                league.given(),
                b".m { font-weight: bold; text-decoration: underline }\n",
            )),
            PagePiece::Raw(b"</style></head><body style='--teams:"),
        ],
    )
}

pub(crate) fn word_if(wanted: bool, word: &[u8]) -> &[u8]
    ensures { result.now ≡ word_if wanted word.now }
{
    if wanted { word } else { b"" }
}
