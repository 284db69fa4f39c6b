//! A status as a person reads it in a browser.
ghost use Rattle.std.specs.Prelude.{◌≡◌, ◌++◌, IfOk, OnErr, OnOk, decimal, flat_map, nat_eq, string_bytes};
ghost use Rattle.std.specs.List.{starts_with};
ghost use Rattle.node_status.specs.declared.page.TheConstants.{HEAD};
ghost use Rattle.node_status.specs.Page.{bar, element, head_html, row_html, marked_html, named_html, page_html, page_piece};
ghost use Rattle.node_status.specs.Rows.{ended_rows, status_rows};

use crate::numbers::percent;
use crate::rows::{Mark, Row, ended_rows, rows_of};
use crate::status::{Progress, Status};
use html_text::push_escaped;
use itoa::Buffer;
use std::alloc::{AllocError, Global};

// Before the style.
const HEAD: &str = "<!DOCTYPE html>
<html lang=\"en\">
<meta charset=\"utf-8\">
<meta http-equiv=\"Content-Security-Policy\" content=\"default-src 'none'; style-src 'unsafe-inline'; base-uri 'none'; form-action 'none'\">
<meta http-equiv=\"refresh\" content=\"2\">
<meta name=\"viewport\" content=\"width=device-width, initial-scale=1\">
<style>";

// How the page looks, in light and dark, from 400 pixels on.
const STYLE: &str = "
:root { color-scheme: light dark; --back: #fff; --text: #222; --dim: #666; --good: #2e7d32; --busy: #b26a00; --bad: #c62828; }
@media (prefers-color-scheme: dark) {
  :root { --back: #181818; --text: #ddd; --dim: #999; --good: #81c784; --busy: #ffb74d; --bad: #ff8a80; }
}
body { margin: 0 auto; padding: 1rem; max-width: 60rem; background: var(--back); color: var(--text); font: 1rem/1.5 system-ui, sans-serif; overflow-wrap: anywhere; }
h1, h2, p { margin: 0; }
h1 { font-size: 1.6rem; }
h2 { margin-top: 1.5rem; font-size: 1rem; color: var(--dim); }
.made { font-variant-numeric: tabular-nums; }
.row { display: flex; flex-wrap: wrap; gap: 0 1rem; margin-top: 0.75rem; padding-left: 0.75rem; border-left: 0.25rem solid; }
.row b, .row span { color: var(--text); }
.row b { min-width: 9rem; }
.row progress { width: 100%; accent-color: currentcolor; }
.good { border-color: var(--good); color: var(--good); }
.busy { border-color: var(--busy); color: var(--busy); }
.bad { border-color: var(--bad); color: var(--bad); }
.note { padding-left: 1rem; color: var(--dim); font-size: 0.9rem; }
.trouble { color: var(--bad); font-weight: 600; }
@media (max-width: 30rem) { .row { display: block; } .row span { display: block; } }
";

/// Appends a page of HTML that shows the status: the same rows as [`push_screen`](crate::push_screen), and bars. It has no script and loads
/// nothing, and a browser asks for it anew every two seconds. O(n). Returns `Err` only if out of memory, and then the page is as it was.
pub fn push_page(page: &mut String, status: &Status) -> Result<(), AllocError>
    ensures ok { OnOk result (string_bytes page.new ≡ string_bytes page.old ++ page_html (status_rows status.now)) }
    ensures err { OnErr result (string_bytes page.new ≡ string_bytes page.old) }
{
    let text = page_of(*page.allocator(), status)?;
    page.push_str(text.as_str())
}

/// Whether a file with these bytes begins as each page does. O(1).
pub fn begins_as_page(bytes: &[u8]) -> bool
    ensures { result ≡ starts_with nat_eq bytes.now HEAD.now }
{
    bytes.starts_with(HEAD.as_bytes())
}

fn page_of(alloc: Global, status: &Status) -> Result<String, AllocError>
    ensures { IfOk result (λ text. string_bytes text ≡ page_html (status_rows status.now)) }
{
    let rows = rows_of(alloc, status)?;
    let mut text = String::new(alloc);
    push_rows_in_page(&mut text, rows.as_slice())?;
    Ok(text)
}

/// Appends the page of a run that has ended, in this second since 1970, of the device with this name and this identity in hexadecimal digits. Returns `Err` only if out
/// of memory, and then the page is as it was.
pub fn push_ended_page(
    page: &mut String,
    name: &str,
    device: &str,
    ended: u64,
) -> Result<(), AllocError>
    ensures ok { OnOk result (string_bytes page.new ≡ string_bytes page.old ++ page_html (ended_rows name.now device.now ended)) }
    ensures err { OnErr result (string_bytes page.new ≡ string_bytes page.old) }
{
    let text = ended_page(*page.allocator(), name, device, ended)?;
    page.push_str(text.as_str())
}

fn ended_page(alloc: Global, name: &str, device: &str, ended: u64) -> Result<String, AllocError>
    ensures { IfOk result (λ text. string_bytes text ≡ page_html (ended_rows name.now device.now ended)) }
{
    let rows = ended_rows(alloc, name, device, ended)?;
    let mut text = String::new(alloc);
    push_rows_in_page(&mut text, rows.as_slice())?;
    Ok(text)
}

fn push_rows_in_page(text: &mut String, rows: &[Row]) -> Result<(), AllocError>
    ensures { OnOk result (string_bytes text.new ≡ string_bytes text.old ++ page_html rows.now) }
{
    push_head(text)?;
    push_rows(text, rows)?;
    text.push_str("</html>\n")
}

fn push_head(text: &mut String) -> Result<(), AllocError>
    ensures { OnOk result (string_bytes text.new ≡ string_bytes text.old ++ head_html) }
{
    text.push_str(HEAD)?;
    text.push_str(STYLE)?;
    text.push_str("</style>\n")
}

fn push_rows(text: &mut String, rows: &[Row]) -> Result<(), AllocError>
    ensures { OnOk result (string_bytes text.new ≡ string_bytes text.old ++ flat_map row_html rows.now) }
{
    for row in rows {
        push_row(text, row)?;
    }
    Ok(())
}

fn push_row(text: &mut String, row: &Row) -> Result<(), AllocError>
    ensures { OnOk result (string_bytes text.new ≡ string_bytes text.old ++ row_html row.now) }
{
    match row.mark {
        Mark::Title => push_title(text, row),
        Mark::Heading => push_name(text, "<h2>", row, "</h2>\n"),
        Mark::Good => push_named(text, "<p class=\"row good\">", row),
        Mark::Busy => push_named(text, "<p class=\"row busy\">", row),
        Mark::Bad => push_named(text, "<p class=\"row bad\">", row),
        Mark::Note => push_words(text, "<p class=\"note\">", row, "</p>\n"),
        Mark::Trouble => push_words(text, "<p class=\"note trouble\">", row, "</p>\n"),
    }
}

fn push_title(text: &mut String, row: &Row) -> Result<(), AllocError>
    ensures { OnOk result (string_bytes text.new ≡ string_bytes text.old ++ marked_html Mark.Title row.now) }
{
    push_name(text, "<title>", row, "</title>\n")?;
    push_name(text, "<h1>", row, "</h1>\n")?;
    push_words(text, "<p class=\"made\">as of ", row, "</p>\n")
}

// The name of a row between two pieces of HTML.
fn push_name(text: &mut String, before: &str, row: &Row, after: &str) -> Result<(), AllocError>
    ensures { OnOk result (string_bytes text.new ≡ string_bytes text.old ++ element before.now row.now.name after.now) }
{
    push_element(text, before, row.name.as_str(), after)
}

// The words of a row between two pieces of HTML.
fn push_words(text: &mut String, before: &str, row: &Row, after: &str) -> Result<(), AllocError>
    ensures { OnOk result (string_bytes text.new ≡ string_bytes text.old ++ element before.now row.now.words after.now) }
{
    push_element(text, before, row.words.as_str(), after)
}

// The row of a folder or of a peer, after a tag.
fn push_named(text: &mut String, tag: &str, row: &Row) -> Result<(), AllocError>
    ensures { OnOk result (string_bytes text.new ≡ string_bytes text.old ++ named_html tag.now row.now) }
{
    text.push_str(tag)?;
    push_name(text, "<b>", row, "</b>")?;
    push_words(text, " <span>", row, "</span>")?;
    push_bar(text, row.progress)?;
    text.push_str("</p>\n")
}

fn push_bar(text: &mut String, progress: Option<Progress>) -> Result<(), AllocError>
    ensures { OnOk result (string_bytes text.new ≡ string_bytes text.old ++ bar progress) }
{
    match progress {
        Some(progress) => {
            text.push_str(" <progress max=\"100\" value=\"")?;
            push_decimal(text, percent(progress))?;
            text.push_str("\"></progress>")
        }
        None => Ok(()),
    }
}

fn push_decimal(text: &mut String, number: u64) -> Result<(), AllocError>
    ensures { OnOk result (string_bytes text.new ≡ string_bytes text.old ++ decimal number) }
{
    let mut digits = Buffer::new();
    text.push_str(digits.format(number))
}

// Appends a text between two pieces of HTML.
fn push_element(text: &mut String, before: &str, shown: &str, after: &str) -> Result<(), AllocError>
    ensures { OnOk result (string_bytes text.new ≡ string_bytes text.old ++ element before.now shown.now after.now) }
{
    text.push_str(before)?;
    push_piece(text, shown)?;
    text.push_str(after)
}

// Appends a text as a browser reads it.
fn push_piece(text: &mut String, shown: &str) -> Result<(), AllocError>
    ensures { OnOk result (string_bytes text.new ≡ string_bytes text.old ++ page_piece shown.now) }
{
    push_escaped(text, shown)
}
