//! A pattern in words.
ghost use Rattle.std.specs.Prelude.{◌≡◌, string_bytes};
ghost use Rattle.croner.specs.Views.{job_of};
ghost use Rattle.croner_pattern.specs.Description.{description};
ghost use Rattle.croner_words.specs.English.{english};
ghost use Rattle.croner_words.specs.Swedish.{swedish};
ghost use Rattle.croner_summary.specs.Texts.{text_of};
ghost use Rattle.croner_c.specs.Answers.{Tells, seen};
ghost use Rattle.croner_c.specs.Descriptions as Spec;
ghost use Rattle.croner_c.specs.Patterns.{settings_of};

use crate::job::{job_of_text, parser_of};
use crate::put::put;
use crate::status::{OK, Reason, memory_of};
use croner::Cron;
use croner::describe::lang::english::English;
use croner::describe::lang::swedish::Swedish;
use croner::parser::CronParser;
use croner_summary::{Summary, SummaryLanguage};
use std::alloc::Global;

/// The form of a description.
#[derive(Debug, Clone, Copy, Drop)]
pub enum Form {
    English,
    Swedish,
    EnglishSummary,
    SwedishSummary,
}

/// Writes a pattern in words, and how long they are.
#[unsafe(no_mangle)]
pub extern "C" fn croner_c_describe(
    alloc: Global,
    text: &[u8],
    settings: u32,
    form: u32,
    words: &mut [u8],
    length: &mut usize,
) -> i32
    ensures { Tells (Spec.IsDescribed text.now settings form) Spec.tell_text (words.old, length.old) (result, (words.new, length.new)) }
{
    match described(alloc, text, settings, form) {
        Ok(all) => {
            *length = put(all.as_bytes(), words);
            OK
        }
        Err(reason) => reason.status(),
    }
}

/// A pattern in words.
fn described(alloc: Global, text: &[u8], settings: u32, form: u32) -> Result<String, Reason>
    ensures { Spec.IsDescribed text.now settings form (seen (λ s. string_bytes s) result) }
{
    match asked_words(settings, form) {
        Ok((parser, form)) => described_text(alloc, parser, form, text),
        Err(reason) => Err(reason),
    }
}

/// The parser and the form of a call, if it is accepted.
fn asked_words(settings: u32, form: u32) -> Result<(CronParser, Form), Reason>
    ensures { result ≡ Spec.with_form (settings_of settings) (Spec.form_of form) }
{
    let parser = parser_of(settings)?;
    let form = form_of(form)?;
    Ok((parser, form))
}

/// The form of a number.
fn form_of(number: u32) -> Result<Form, Reason>
    ensures { result ≡ Spec.form_of number }
{
    match number {
        0 => Ok(Form::English),
        1 => Ok(Form::Swedish),
        2 => Ok(Form::EnglishSummary),
        3 => Ok(Form::SwedishSummary),
        _ => Err(Reason::BadArgument),
    }
}

/// The pattern of a text in words.
fn described_text(
    alloc: Global,
    parser: CronParser,
    form: Form,
    text: &[u8],
) -> Result<String, Reason>
    ensures { Spec.AreWordsOf parser form text.now (seen (λ s. string_bytes s) result) }
{
    match job_of_text(alloc, parser, text) {
        Ok(job) => words_of(alloc, &job, form),
        Err(reason) => Err(reason),
    }
}

/// A job in words.
fn words_of(alloc: Global, job: &Cron, form: Form) -> Result<String, Reason>
    ensures { Spec.AreWords form (job_of job.now) (seen (λ s. string_bytes s) result) }
{
    match form {
        Form::English => in_english(job),
        Form::Swedish => in_swedish(job),
        Form::EnglishSummary => summary_of(alloc, job, SummaryLanguage::English),
        Form::SwedishSummary => summary_of(alloc, job, SummaryLanguage::Swedish),
    }
}

/// The text of a job in English.
fn in_english(job: &Cron) -> Result<String, Reason>
    ensures { Spec.IsText (description english (job_of job.now)) (seen (λ s. string_bytes s) result) }
{
    match job.describe_lang(English) {
        Ok(words) => Ok(words),
        Err(error) => Err(memory_of(error)),
    }
}

/// The text of a job in Swedish.
fn in_swedish(job: &Cron) -> Result<String, Reason>
    ensures { Spec.IsText (description swedish (job_of job.now)) (seen (λ s. string_bytes s) result) }
{
    match job.describe_lang(Swedish) {
        Ok(words) => Ok(words),
        Err(error) => Err(memory_of(error)),
    }
}

/// The text of a job's summary.
fn summary_of(alloc: Global, job: &Cron, language: SummaryLanguage) -> Result<String, Reason>
    ensures { Spec.IsSummaryText language (job_of job.now) (seen (λ s. string_bytes s) result) }
{
    match Summary::of(alloc, job) {
        Ok(summary) => summary_text(alloc, &summary, language),
        Err(error) => Err(memory_of(error)),
    }
}

/// A summary in words.
fn summary_text(
    alloc: Global,
    summary: &Summary,
    language: SummaryLanguage,
) -> Result<String, Reason>
    ensures { Spec.IsText (text_of language summary.now) (seen (λ s. string_bytes s) result) }
{
    match summary.text(alloc, &language) {
        Ok(words) => Ok(words),
        Err(error) => Err(memory_of(error)),
    }
}
