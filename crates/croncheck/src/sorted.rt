//! What the words of a call name: lines of a crontab, patterns and files.

use crate::below::{is_folder, push_found};
use crate::machine::announce;
use crate::meant::{is_line, is_there};
use croncheck_command::words::{Call, Format, Verb};
use croncheck_files::names::Asked;
use crontab::line::Dialect;
use std::alloc::AllocError;
use std::io;

/// What is said of a file of YAML.
const YAML: &str =
    "this is YAML, and no crontab. yq takes the schedules out of it: yq -r '.spec.schedule' FILE | croncheck --patterns, and for a workflow (yq reads its key on as true): yq -r '(.on // .true).schedule[].cron' FILE | croncheck --patterns";

/// A file of a call, or a line or a pattern that is read as one.
pub struct Source {
    // As in [`Asked`].
    word: String,
    name: String,
    kind: Option<Dialect>,
}

// By hand, so that a function that lets one go calls this one.
impl Drop for Source {
    fn drop(self) {
        let Source {
            word: _,
            name: _,
            kind: _,
        } = self;
    }
}

impl Source {
    /// The source of these texts. The only error is lack of memory.
    pub fn of(rt: &HostRuntime, asked: Asked<'_>) -> Result<Source, AllocError> {
        let word = String::from_str(rt.alloc(), asked.word)?;
        let name = String::from_str(rt.alloc(), asked.name)?;
        Ok(Source {
            word,
            name,
            kind: asked.kind,
        })
    }

    /// The file, line or pattern.
    pub fn asked(&self) -> Asked<'_> {
        Asked {
            word: self.word.as_str(),
            name: self.name.as_str(),
            kind: self.kind,
        }
    }
}

/// The files of these sources. The only error is lack of memory.
pub fn asked_of<'f>(rt: &HostRuntime, sources: &'f [Source]) -> Result<Vec<Asked<'f>>, AllocError> {
    let mut files = Vec::new(rt.alloc());
    for source in sources {
        files.push(source.asked())?;
    }
    Ok(files)
}

/// What a call names.
#[derive(Drop)]
pub struct Sorted<'w> {
    /// Lines that are told as texts.
    pub lines: Vec<Asked<'w>>,
    /// Files, and lines and patterns that are told as those of files.
    pub files: Vec<Source>,
    /// A file of YAML is among the words, which isn't read.
    pub has_yaml: bool,
}

/// These files and no line. The only error is lack of memory.
pub fn sorted_files<'w>(rt: &HostRuntime, files: &[Asked<'_>]) -> Result<Sorted<'w>, AllocError> {
    let mut sorted = nothing(rt);
    for file in files {
        sorted.files.push(Source::of(rt, *file)?)?;
    }
    Ok(sorted)
}

fn nothing<'w>(rt: &HostRuntime) -> Sorted<'w> {
    Sorted {
        lines: Vec::new(rt.alloc()),
        files: Vec::new(rt.alloc()),
        has_yaml: false,
    }
}

/// The words of a call by what they name. Where folders are to be entered, what is found there stands in place of the folder. Standard error says
/// which files are of YAML. The error is that of a folder that can't be listed, or says that memory is lacking.
pub fn sorted_words<'w>(rt: &HostRuntime, call: &Call<'w>) -> io::Result<Sorted<'w>> {
    let mut sorted = nothing(rt);
    for pattern in call.patterns.as_slice() {
        sorted.files.push(Source::of(rt, asked_pattern(pattern))?)?;
    }
    for file in call.files.as_slice() {
        sort_word(rt, call, *file, &mut sorted)?;
    }
    Ok(sorted)
}

fn sort_word<'w>(
    rt: &HostRuntime,
    call: &Call<'w>,
    file: Asked<'w>,
    sorted: &mut Sorted<'w>,
) -> io::Result<()> {
    if matches!(texts_of(call), Texts::Lines) && is_line(rt, file.word) {
        sort_line(rt, call, file, sorted)?;
    } else if is_yaml(file) && is_there(rt, file.word) {
        sorted.has_yaml = true;
        announce(rt, file.name, YAML)?;
    } else if call.is_recursive && is_folder(rt, file.word) {
        push_found(rt, file, &mut sorted.files)?;
    } else {
        sorted.files.push(Source::of(rt, file)?)?;
    }
    Ok(())
}

/// Which names are texts, and no files.
#[derive(Clone, Copy)]
pub enum Texts {
    /// None.
    None,
    /// Each that is no file and reads as a line of a crontab.
    Lines,
    /// Each, as a pattern.
    Patterns,
}

/// Which words of a call are texts. Each place that a report for another program names is one in a file, so no word is a line there.
pub fn texts_of(call: &Call<'_>) -> Texts {
    if !call.patterns.is_empty() {
        return Texts::Patterns;
    }
    match call.format {
        Format::Text | Format::Json => Texts::Lines,
        Format::Gcc | Format::Github | Format::Sarif => Texts::None,
    }
}

// A line is told as a text, unless a plan or JSON is asked for.
fn sort_line<'w>(
    rt: &HostRuntime,
    call: &Call<'w>,
    line: Asked<'w>,
    sorted: &mut Sorted<'w>,
) -> Result<(), AllocError> {
    let kind = line.kind.unwrap_or(Dialect::User);
    let line = Asked {
        kind: Some(kind),
        ..line
    };
    if is_told_as_text(call) {
        sorted.lines.push(line)?;
    } else {
        sorted.files.push(Source::of(rt, line)?)?;
    }
    Ok(())
}

fn is_told_as_text(call: &Call<'_>) -> bool {
    match (call.verb, call.format) {
        (Verb::Plan, _) | (_, Format::Json) => false,
        (Verb::Check | Verb::Show | Verb::Next | Verb::Describe, _) => true,
    }
}

// Whether a file is of YAML by its name, and no option says how it is read.
fn is_yaml(file: Asked<'_>) -> bool {
    let is_named_so = file.word.ends_with(".yaml") || file.word.ends_with(".yml");
    is_named_so && file.kind.is_none()
}

// A pattern of the call, as a file of patterns.
fn asked_pattern<'w>(pattern: &'w str) -> Asked<'w> {
    Asked {
        word: pattern,
        name: pattern,
        kind: Some(Dialect::Patterns),
    }
}
