//! Why a pattern is refused.
ghost use Rattle.std.specs.Prelude.{◌≡◌, ◌≤◌, length, IsUtf8};
ghost use Rattle.std.specs.Str.{chars, IsValidUpTo};
ghost use Rattle.croner_c.specs.Answers.{OrLack, Tells, seen};
ghost use Rattle.croner_c.specs.Faults as Spec;

use crate::job::parser_of;
use crate::put::put;
use crate::status::{OK, Reason, memory_of};
use croner::parser::{CronParser, FaultKind, PatternFault, PatternField};
use std::alloc::Global;

/// Where and why a pattern is refused.
#[repr(C)]
#[derive(Drop, Clone, Copy)]
pub struct Fault {
    /// The bytes of this struct.
    pub size: usize,
    /// The byte at which the fault begins, from 0.
    pub begin: usize,
    /// The byte after its last one.
    pub end: usize,
    /// The number of its first character, from 1.
    pub character: usize,
    /// The place of its field, 0 for the seconds; -1 where there is no single one.
    pub field: i32,
    /// Its kind.
    pub kind: i32,
}

/// The bytes of a `Fault`.
const FAULT_SIZE: usize = 40;

/// What is said of a text that isn't UTF-8.
const NOT_UTF8: &str = "Expected UTF-8.";

/// No fault.
const NO_FAULT: Fault = Fault {
    size: FAULT_SIZE,
    begin: 0,
    end: 0,
    character: 0,
    field: -1,
    kind: 0,
};

/// A fault with its message.
#[derive(Drop)]
struct Explanation {
    fault: Fault,
    message: String,
}

/// Writes where and why a pattern is refused, or that it isn't.
#[unsafe(no_mangle)]
pub extern "C" fn croner_c_explain(
    alloc: Global,
    text: &[u8],
    settings: u32,
    fault: &mut Fault,
    message: &mut [u8],
    length: &mut usize,
) -> i32
    ensures { Tells (Spec.IsExplained text.now settings fault.old.size) Spec.tell_fault (fault.old, (message.old, length.old))
        (result, (fault.new, (message.new, length.new))) }
{
    match explained(alloc, text, settings, fault.size) {
        Ok(None) => {
            *fault = NO_FAULT;
            *length = 0;
            OK
        }
        Ok(Some(found)) => {
            *fault = found.fault;
            *length = put(found.message.as_bytes(), message);
            Reason::Refused.status()
        }
        Err(reason) => reason.status(),
    }
}

/// Where and why a pattern is refused, if it is.
fn explained(
    alloc: Global,
    text: &[u8],
    settings: u32,
    size: usize,
) -> Result<Option<Explanation>, Reason>
    ensures { Spec.IsExplained text.now settings size (seen Spec.explanation_seen result) }
{
    match asked_fault(settings, size) {
        Ok(parser) => explained_bytes(alloc, parser, text),
        Err(reason) => Err(reason),
    }
}

/// The parser of a call, if it is accepted.
fn asked_fault(settings: u32, size: usize) -> Result<CronParser, Reason>
    ensures { result ≡ Spec.asked_fault settings size }
{
    if size == FAULT_SIZE {
        parser_of(settings)
    } else {
        Err(Reason::BadArgument)
    }
}

/// Where and why bytes are refused, if they are.
fn explained_bytes(
    alloc: Global,
    parser: CronParser,
    text: &[u8],
) -> Result<Option<Explanation>, Reason>
    ensures { Spec.IsExplainedBy parser text.now (seen Spec.explanation_seen result) }
{
    match std::str::from_utf8(text) {
        Ok(text) => explained_text(alloc, parser, text),
        Err(error) => explained_up_to(alloc, text, error.valid_up_to()),
    }
}

/// Where and why a text that is UTF-8 is refused, if it is.
fn explained_text(
    alloc: Global,
    parser: CronParser,
    text: &str,
) -> Result<Option<Explanation>, Reason>
    ensures { IsUtf8 text.now → Spec.IsExplainedBy parser text.now (seen Spec.explanation_seen result) }
{
    match parser.explain(alloc, text) {
        Ok(None) => Ok(None),
        Ok(Some(found)) => with_message(alloc, &found),
        Err(error) => Err(memory_of(error)),
    }
}

/// A fault with its message.
fn with_message(alloc: Global, found: &PatternFault) -> Result<Option<Explanation>, Reason>
    ensures { OrLack (Spec.HasFault (Spec.fault_of found.now)) (seen Spec.explanation_seen result) }
{
    let fault = fault_of(found);
    match format!(in alloc; "{found}") {
        Ok(message) => Ok(Some(Explanation { fault, message })),
        Err(_) => Err(Reason::OutOfMemory),
    }
}

/// The fault of bytes that are UTF-8 up to a place, and no farther.
fn explained_up_to(alloc: Global, text: &[u8], valid: usize) -> Result<Option<Explanation>, Reason>
    requires { IsValidUpTo text.now valid }
    ensures { OrLack (Spec.HasFault (Spec.fault_at text.now valid)) (seen Spec.explanation_seen result) }
{
    let fault = Fault {
        size: FAULT_SIZE,
        begin: valid,
        end: valid + 1,
        character: characters(&text[..valid]) + 1,
        field: -1,
        kind: 5,
    };
    match String::from_str(alloc, NOT_UTF8) {
        Ok(message) => Ok(Some(Explanation { fault, message })),
        Err(_) => Err(Reason::OutOfMemory),
    }
}

/// The fault of a pattern for C.
fn fault_of(fault: &PatternFault) -> Fault
    ensures { result ≡ Spec.fault_of fault.now }
{
    Fault {
        size: FAULT_SIZE,
        begin: fault.start,
        end: fault.end,
        character: fault.character,
        field: number_of_field(fault.field),
        kind: number_of_kind(fault.kind),
    }
}

/// The number of a field, -1 where there is no single one.
fn number_of_field(field: Option<PatternField>) -> i32
    ensures { result ≡ Spec.number_of_field field }
{
    match field {
        Some(field) => field.place() as i32,
        None => -1,
    }
}

/// The number of a kind.
fn number_of_kind(kind: FaultKind) -> i32
    ensures { result ≡ Spec.number_of_kind kind }
{
    match kind {
        FaultKind::EmptyPattern => 1,
        FaultKind::InvalidPattern => 2,
        FaultKind::IllegalCharacters => 3,
        FaultKind::ComponentError => 4,
    }
}

/// How many characters bytes of UTF-8 are.
fn characters(text: &[u8]) -> usize
    ensures value { IsUtf8 text.now → result ≡ length (chars text.now) }
    ensures most { result ≤ length text.now }
{
    match std::str::from_utf8(text) {
        Ok(text) => character_count(text),
        Err(_) => 0,
    }
}

/// How many characters a text has.
fn character_count(text: &str) -> usize
    ensures value { result ≡ length (chars text.now) }
    ensures most { result ≤ length text.now }
{
    text.chars().count()
}
