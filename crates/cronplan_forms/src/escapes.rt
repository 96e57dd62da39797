//! The characters of a text as they are written in a calendar or a page.
ghost use Rattle.std.specs.Prelude.{◌≡◌, ◌++◌, option_map, OnOk, IfOk, IsTrue, string_bytes};
ghost use Rattle.std.specs.List.{list_all};
ghost use Rattle.cronplan_forms.specs.Escapes.{text_escape, html_escape, escape_of, backslash, is_control, number_text, plain_text, escaped_character, escaped_text, ends_nothing};

use std::alloc::{AllocError, Global};

/// Where a text is written.
#[derive(Debug, Clone, Copy)]
pub enum Form {
    /// In a value of type TEXT of a calendar (RFC 5545, section 3.3.11).
    Text,
    /// In an element of a page, or in an attribute's value between quotes.
    Html,
}

/// A text as it is written in a form.
///
/// No character of the result ends a property of a calendar, or an element or attribute of a page: one that would is escaped. Other ASCII
/// control characters are written by number, as `\u{1b}`. The only error is lack of memory.
pub fn escape(alloc: Global, text: &str, form: Form) -> Result<String, AllocError>
    ensures value { IfOk result (λ t. string_bytes t ≡ escaped_text form text.now) }
    ensures closed { IfOk result (λ t. IsTrue (list_all (ends_nothing form) (string_bytes t))) }
{
    let mut escaped = String::new(alloc);
    push_escaped(&mut escaped, text, form)?;
    Ok(escaped)
}

/// Appends a text to another, as it is written in a form.
///
/// The only error is lack of memory; the end of the other text is then unspecified.
#[tactic(auto, using(crate::proofs::EscapedTexts::all_closed))]
pub fn push_escaped(out: &mut String, text: &str, form: Form) -> Result<(), AllocError>
    ensures value { OnOk result (string_bytes out.new ≡ string_bytes out.old ++ escaped_text form text.now) }
    ensures closed { IsTrue (list_all (ends_nothing form) (escaped_text form text.now)) }
{
    for c in text.chars() {
        push_character(out, c, form)?;
    }
    Ok(())
}

fn push_character(out: &mut String, c: char, form: Form) -> Result<(), AllocError>
    ensures { OnOk result (string_bytes out.new ≡ string_bytes out.old ++ escaped_character form c) }
{
    match escape_of(c, form) {
        Some(escape) => out.push_str(escape),
        None => push_plain(out, c, form),
    }
}

// Appends a character that has no escape to a text.
fn push_plain(out: &mut String, c: char, form: Form) -> Result<(), AllocError>
    ensures { OnOk result (string_bytes out.new ≡ string_bytes out.old ++ plain_text form c) }
{
    if is_control(c) {
        return push_number(out, c, form);
    }
    out.push(c)
}

fn push_number(out: &mut String, c: char, form: Form) -> Result<(), AllocError>
    ensures { OnOk result (string_bytes out.new ≡ string_bytes out.old ++ number_text form c) }
{
    let code = u32::from(c);
    let backslash = backslash(form);
    write!(out, "{backslash}u{{{code:x}}}")
}

fn backslash(form: Form) -> &'static str
    ensures { result.now ≡ backslash form }
{
    match form {
        Form::Text => "\\\\",
        Form::Html => "\\",
    }
}

// Whether a character is an ASCII control character.
fn is_control(c: char) -> bool
    ensures { result ≡ is_control c }
{
    c < ' ' || c == '\x7f'
}

// The escape of a character that isn't written as it is.
fn escape_of(c: char, form: Form) -> Option<&'static str>
    ensures { option_map (λ escape. escape.now) result ≡ escape_of form c }
{
    match form {
        Form::Text => text_escape(c),
        Form::Html => html_escape(c),
    }
}

fn text_escape(c: char) -> Option<&'static str>
    ensures { option_map (λ escape. escape.now) result ≡ text_escape c }
{
    match c {
        '\\' => Some("\\\\"),
        ';' => Some("\\;"),
        ',' => Some("\\,"),
        '\n' => Some("\\n"),
        _ => None,
    }
}

fn html_escape(c: char) -> Option<&'static str>
    ensures { option_map (λ escape. escape.now) result ≡ html_escape c }
{
    match c {
        '&' => Some("&amp;"),
        '<' => Some("&lt;"),
        '>' => Some("&gt;"),
        '"' => Some("&quot;"),
        '\'' => Some("&#39;"),
        _ => None,
    }
}
