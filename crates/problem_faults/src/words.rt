ghost use Rattle.std.specs.Prelude.{◌≡◌, ◌++◌, IfOk, IsErr};
ghost use Rattle.plan_facts.specs.Append.{Appends};
ghost use Rattle.problem_faults.specs.Words.{setting_name, record_text, place_text, fault_words, refusal_line};
ghost use Rattle.problem_faults.specs.declared.fault.ProblemFault.TheVariants as ProblemFault;

use crate::fault::ProblemFault;
use crate::pieces::joined;
use itoa::Buffer;
use plan_facts::{Memory, Text};
use plan_settings::Setting;
use std::alloc::Global;

/// The name that a problem's text has for the setting.
pub fn setting_name(setting: Setting) -> &'static [u8]
    ensures { result.now ≡ setting_name setting }
{
    match setting {
        Setting::Seed => b"seed",
        Setting::Steps => b"steps",
        Setting::SelectLimit => b"select_limit",
        Setting::AcceptedLimit => b"accepted_limit",
        Setting::PickEarly => b"pick_early",
        Setting::Acceptor => b"acceptor",
        Setting::LateSize => b"late_size",
        Setting::TabuSize => b"tabu_size",
        Setting::StepCountSize => b"step_count_size",
        Setting::Selectors => b"selectors",
        Setting::Construction => b"construction",
    }
}

/// A word and a record: its class and id.
fn record_words(alloc: Global, word: &[u8], class: &Text, id: u32) -> Result<Text, Memory>
    ensures { IfOk result (λ words. words ≡ word.now ++ record_text class.now id) }
{
    let mut digits = Buffer::new();
    joined(
        alloc,
        &[word, class.as_slice(), b"#", digits.format(id).as_bytes()],
    )
}

/// A word, a record, and the name of a field or a variable of it.
fn place_words(
    alloc: Global,
    word: &[u8],
    class: &Text,
    id: u32,
    name: &Text,
) -> Result<Text, Memory>
    ensures { IfOk result (λ words. words ≡ word.now ++ place_text class.now id name.now) }
{
    let words = record_words(alloc, word, class, id)?;
    joined(alloc, &[words.as_slice(), b" ", name.as_slice()])
}

/// The words of a refusal; want of memory has none.
fn fault_words(alloc: Global, fault: &ProblemFault) -> Result<Text, Memory>
    ensures words { IfOk result (λ words. words ≡ fault_words fault.now) }
    ensures memory { fault.now ≡ ProblemFault.Memory → IsErr result }
{
    match fault {
        ProblemFault::Memory => Err(Memory),
        ProblemFault::TooLong => joined(alloc, &[b"too_long"]),
        ProblemFault::Json => joined(alloc, &[b"json"]),
        ProblemFault::Shape { path } => joined(alloc, &[b"shape ", path.as_slice()]),
        ProblemFault::UnknownDomain => joined(alloc, &[b"domain"]),
        ProblemFault::BadSetting { setting } => joined(
            alloc,
            &[b"setting ", setting_name(*setting)],
        ),
        ProblemFault::TooManyFacts => joined(alloc, &[b"too_many_facts"]),
        ProblemFault::DoubleId { class, id } => record_words(alloc, b"double_id ", class, *id),
        ProblemFault::BadField { class, id, field } => place_words(
            alloc,
            b"bad_field ",
            class,
            *id,
            field,
        ),
        ProblemFault::BadValue { class, id, var } => place_words(
            alloc,
            b"bad_value ",
            class,
            *id,
            var,
        ),
        ProblemFault::RangeProduct { class } => joined(
            alloc,
            &[b"range_product ", class.as_slice()],
        ),
        ProblemFault::RowsBound { rule } => joined(alloc, &[b"rows_bound ", rule.as_slice()]),
        ProblemFault::ScoreRange => joined(alloc, &[b"score_range"]),
    }
}

/// Appends the line that says why a problem is refused. Want of memory has no line: it is answered as Memory. On an error
/// nothing is appended.
pub fn write_refusal(fault: &ProblemFault, out: &mut Vec<u8>) -> Result<(), Memory>
    ensures line { Appends result out.old.items out.new.items (refusal_line fault.now) }
    ensures memory { fault.now ≡ ProblemFault.Memory → IsErr result }
{
    let alloc = *out.allocator();
    let words = fault_words(alloc, fault)?;
    let line = joined(alloc, &[b"refused problem ", words.as_slice(), b"\n"])?;
    out.extend_from_slice(line.as_slice())?;
    Ok(())
}
