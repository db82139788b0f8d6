//! A page that shows a run.

ghost use Rattle.std.specs.Prelude.{◌≡◌, ◌++◌, IfOk, OnOk};
ghost use Rattle.trace_json.specs.Pages.{html_octet, page_of, within_html};

use crate::page_head::HEAD;
use crate::page_script::TAIL;
use std::alloc::{AllocError, Global};

/// Puts one octet of JSON as it may stand in HTML.
fn put_octet(text: &mut Vec<u8>, octet: u8) -> Result<(), AllocError>
    ensures { OnOk result (text.new.items ≡ text.old.items ++ html_octet octet) }
{
    if octet == b'<' {
        return text.extend_from_slice(b"\\u003c");
    }
    text.push(octet)?;
    Ok(())
}

/// Puts JSON as it may stand in HTML: without `<`, that nothing in it ends its element.
fn put_within_html(text: &mut Vec<u8>, json: &[u8]) -> Result<(), AllocError>
    ensures { OnOk result (text.new.items ≡ text.old.items ++ within_html json.now) }
{
    for octet in json {
        put_octet(text, *octet)?;
    }
    Ok(())
}

/// A text, JSON as it may stand in HTML, a text.
fn between(alloc: Global, head: &str, json: &str, tail: &str) -> Result<Vec<u8>, AllocError>
    ensures { IfOk result (λ page. page.items ≡ head.now ++ (within_html json.now ++ tail.now)) }
{
    let mut page = Vec::new(alloc);
    page.extend_from_slice(head.as_bytes())?;
    put_within_html(&mut page, json.as_bytes())?;
    page.extend_from_slice(tail.as_bytes())?;
    Ok(page)
}

/// The octets of an HTML file that shows the run of this JSON in a browser, and loads nothing from elsewhere: a fixed text, the JSON
/// with `\u003c` in the place of each `<`, a fixed text.
///
/// # Errors
///
/// Only where there is no memory.
pub fn page(alloc: Global, json: &str) -> Result<Vec<u8>, AllocError>
    ensures { IfOk result (λ page. page.items ≡ page_of json.now) }
{
    between(alloc, HEAD, json, TAIL)
}
