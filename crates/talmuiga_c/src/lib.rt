//! Lines of decimals for C: `include/talmuiga.h` says what each function promises, and what its
//! caller owes.
#![tactic(auto)]

mod asked;
mod english;
mod fault;
mod form_lines;
mod formatting;
mod given;
mod given_calls;
mod handle;
mod held;
mod judging;
mod kept;
mod listing;
mod locale_ranges;
mod marked;
mod message_calls;
mod message_fault;
mod message_places;
mod message_status;
mod messages;
mod opened;
mod output;
mod patterns;
mod plain_digits;
mod range_status;
mod ranges;
mod read_back;
mod reading_calls;
mod skeletons;
mod status;

ghost use Rattle.decimal_lines.specs.Plain.{english};
ghost use Rattle.decimal_lines.specs.declared.mode.Mode.TheVariants.{Plain};
ghost use Rattle.talmuiga_c.specs.Asked.{words_asked};
ghost use Rattle.talmuiga_c.specs.Endings.{Ends, IsFormatted};
ghost use Rattle.talmuiga_c.specs.English.{english_locale, english_tables};
ghost use Rattle.talmuiga_c.specs.Faults.{IsJudged};
ghost use Rattle.talmuiga_c.specs.Handle.{empty, holding};
ghost use Rattle.talmuiga_c.specs.Kept.{IsWrittenSoFar, IsShown, Opens, OpensIn, version};
ghost use Rattle.talmuiga_c.specs.Listing.{IsListed, listed_kind};
ghost use Rattle.talmuiga_c.specs.Marked.{IsShownInParts};
ghost use Rattle.talmuiga_c.specs.Ranges.{IsRange, OpensRanges};
ghost use Rattle.std.specs.Prelude.{◌≡◌, Ok};
ghost use Rattle.std.specs.Mem.{type_size};
ghost use Rattle.talmuiga_c.specs.contracts.held.Held.{the_row};
ghost use Rattle.talmuiga_c.specs.declared.kept.Kept.{Kept};
ghost use Rattle.talmuiga_c.specs.Skeletons.{IsCanonical, OpensSkeleton};

use asked::words_asked;
use decimal_lines::Mode;
use english::ENGLISH;
use fault::Fault;
use formatting::{format_asked, format_by};
use handle::Room;
use held::Held;
use judging::judge_in_words;
use kept::{Kept, Reached, format_lines_in, format_one_in, open_asked};
use listing::list_tables;
use marked::{Span, format_parts_in};
use ranges::{format_range_in, open_ranges};
use skeletons::{open_skeleton, put_canonical};
use std::alloc::Global;
use std::mem;

/// Formats all lines of the input in plain English.
// promise: In plain English it writes the output, or whole lines of it.
// mutations: output_too_small_told_as_done
#[unsafe(no_mangle)]
pub extern "C" fn talmuiga_format_english_sized(
    alloc: Global,
    input: &[u8],
    output: &mut [u8],
    written: &mut usize,
) -> u32
    ensures { IsFormatted (Plain english) input.now output.old output.new written.new result }
{
    match Mode::english(alloc) {
        Ok(mode) => format_by(alloc, &mode, input, output, written),
        Err(_) => {
            *written = 0;
            status::OUT_OF_MEMORY
        }
    }
}

/// Formats all lines of the input by tables, as the arguments of `decfmt` ask for; an empty
/// strategy is none.
// promise: Arguments and tables determine mode, output and status.
// mutations: asked_no_data_told_as_refused_tables
#[unsafe(no_mangle)]
pub extern "C" fn talmuiga_format_lines_sized(
    alloc: Global,
    tables: &[u8],
    locale: &[u8],
    system: &[u8],
    style: &[u8],
    grouping: &[u8],
    input: &[u8],
    output: &mut [u8],
    written: &mut usize,
) -> u32
    ensures { Ends (words_asked locale.now system.now style.now grouping.now) tables.now input.now
        output.old output.new written.new result }
{
    match words_asked(locale, system, style, grouping) {
        Some(words) => format_asked(alloc, &words, tables, input, output, written),
        None => {
            *written = 0;
            status::WORDS_REFUSED
        }
    }
}

/// How many bytes of room a formatter, a message or arguments need, whose pointer is aligned to 16.
#[unsafe(no_mangle)]
pub extern "C" fn talmuiga_formatter_room() -> usize
    ensures { result ≡ type_size the_row }
{
    mem::size_of::<Held>()
}

/// Opens a formatter in plain English.
#[unsafe(no_mangle)]
pub extern "C" fn talmuiga_formatter_open_english_sized(alloc: Global, formatter: &mut Room) -> u32
    requires empty { formatter.old.held ≡ empty }
    ensures opens { OpensIn (Ok (Plain english)) formatter.new.held result }
{
    match Mode::english(alloc) {
        Ok(mode) => {
            formatter.put(Kept::ByWords(mode));
            status::DONE
        }
        Err(_) => status::OUT_OF_MEMORY,
    }
}

/// Opens a formatter by tables, as the arguments of `decfmt` ask for; an empty strategy is none.
// promise: Arguments and tables open the formatter of their mode.
// mutations: kept_words_refused_told_as_no_data
#[unsafe(no_mangle)]
pub extern "C" fn talmuiga_formatter_open_sized(
    alloc: Global,
    tables: &[u8],
    locale: &[u8],
    system: &[u8],
    style: &[u8],
    grouping: &[u8],
    formatter: &mut Room,
) -> u32
    requires empty { formatter.old.held ≡ empty }
    ensures opens { Opens (words_asked locale.now system.now style.now grouping.now) tables.now
        formatter.new.held result }
{
    match words_asked(locale, system, style, grouping) {
        Some(words) => open_asked(alloc, &words, tables, formatter),
        None => status::WORDS_REFUSED,
    }
}

/// Opens a formatter by tables, a locale and a number skeleton. What is wrong with the skeleton is
/// set, or zeros.
// promise: Locale, skeleton and tables determine the form, or none.
// mutations: fault_left_as_it_was, tables_judged_before_the_skeleton
#[unsafe(no_mangle)]
pub extern "C" fn talmuiga_formatter_open_skeleton_sized(
    alloc: Global,
    tables: &[u8],
    locale: &[u8],
    skeleton: &[u8],
    fault: &mut Fault,
    formatter: &mut Room,
) -> u32
    requires empty { formatter.old.held ≡ empty }
    ensures opens { OpensSkeleton locale.now skeleton.now tables.now formatter.new.held
        fault.new result }
{
    open_skeleton(alloc, tables, locale, skeleton, fault, formatter)
}

/// Opens a formatter in English by a number skeleton, without tables: by those of English that the
/// library has. What is wrong with the skeleton is set, or zeros.
// promise: A skeleton determines the English form, or none.
// mutations: english_skeleton_in_another_locale
#[unsafe(no_mangle)]
pub extern "C" fn talmuiga_formatter_open_english_skeleton_sized(
    alloc: Global,
    skeleton: &[u8],
    fault: &mut Fault,
    formatter: &mut Room,
) -> u32
    requires empty { formatter.old.held ≡ empty }
    ensures opens { OpensSkeleton english_locale skeleton.now english_tables formatter.new.held
        fault.new result }
{
    open_skeleton(alloc, ENGLISH.as_bytes(), b"en", skeleton, fault, formatter)
}

/// Writes the canonical text of a number skeleton, if it fits, and sets its length, and what is
/// wrong with the skeleton, or zeros.
// promise: A skeleton has its canonical text, or its first fault.
// mutations: canonical_too_long_told_as_done
#[unsafe(no_mangle)]
pub extern "C" fn talmuiga_skeleton_canonical_sized(
    alloc: Global,
    skeleton: &[u8],
    output: &mut [u8],
    length: &mut usize,
    fault: &mut Fault,
) -> u32
    ensures { IsCanonical skeleton.now output.old output.new length.new fault.new result }
{
    put_canonical(alloc, skeleton, output, length, fault)
}

/// Formats as many lines of the input as fit.
// promise: It says how many bytes are answered, and what comes next.
// mutations: kept_written_told_as_consumed, kept_needed_left_out
#[unsafe(no_mangle)]
pub extern "C" fn talmuiga_formatter_format_sized(
    alloc: Global,
    formatter: &mut Room,
    input: &[u8],
    output: &mut [u8],
    reached: &mut Reached,
) -> u32
    ghost kept: { Kept }
    requires open { formatter.old.held ≡ holding kept }
    ensures written { IsWrittenSoFar kept input.now output.old output.new reached.new.consumed
        reached.new.written reached.new.needed result }
    ensures handed_back { formatter.new.held ≡ holding kept }
{
    let lent = formatter.lend();
    let status = format_lines_in(alloc, lent.kept(), input, output, reached);
    formatter.back(lent);
    status
}

/// Formats one number, if its text fits, and sets the length of the text.
// promise: One number has its text if it fits, and its length.
// mutations: kept_no_text_with_a_length
#[unsafe(no_mangle)]
pub extern "C" fn talmuiga_formatter_one_sized(
    alloc: Global,
    formatter: &mut Room,
    text: &[u8],
    output: &mut [u8],
    length: &mut usize,
) -> u32
    ghost kept: { Kept }
    requires open { formatter.old.held ≡ holding kept }
    ensures shown { IsShown kept text.now output.old output.new length.new result }
    ensures handed_back { formatter.new.held ≡ holding kept }
{
    let lent = formatter.lend();
    let status = format_one_in(alloc, lent.kept(), text, output, length);
    formatter.back(lent);
    status
}

/// Formats one number and returns the parts of its text, each where it has room, and sets the
/// length of the text and the count of its parts.
// promise: One number has its text and its parts, if they fit.
// mutations: parts_group_told_as_integer, parts_end_told_as_start
#[unsafe(no_mangle)]
pub extern "C" fn talmuiga_formatter_parts_sized(
    alloc: Global,
    formatter: &mut Room,
    text: &[u8],
    output: &mut [u8],
    length: &mut usize,
    spans: &mut [Span],
    count: &mut usize,
) -> u32
    ghost kept: { Kept }
    requires open { formatter.old.held ≡ holding kept }
    ensures shown { IsShownInParts kept text.now output.old output.new length.new spans.old
        spans.new count.new result }
    ensures handed_back { formatter.new.held ≡ holding kept }
{
    let lent = formatter.lend();
    let status = format_parts_in(alloc, lent.kept(), text, output, length, spans, count);
    formatter.back(lent);
    status
}

/// Opens a formatter that writes ranges too, by tables, a locale and a number skeleton. What is
/// wrong with the skeleton is set, or zeros.
// promise: Locale, skeleton and tables determine form and ranges.
// mutations: ranges_no_pattern_told_as_no_data, ranges_pattern_before_the_form
#[unsafe(no_mangle)]
pub extern "C" fn talmuiga_formatter_open_ranges_sized(
    alloc: Global,
    tables: &[u8],
    locale: &[u8],
    skeleton: &[u8],
    fault: &mut Fault,
    formatter: &mut Room,
) -> u32
    requires empty { formatter.old.held ≡ empty }
    ensures opens { OpensRanges locale.now skeleton.now tables.now formatter.new.held
        fault.new result }
{
    open_ranges(alloc, tables, locale, skeleton, fault, formatter)
}

/// Opens a formatter in English that writes ranges too, by a number skeleton, without tables: by
/// those of English that the library has. What is wrong with the skeleton is set, or zeros.
// promise: A skeleton determines the English form and ranges.
// mutations: english_ranges_in_another_locale
#[unsafe(no_mangle)]
pub extern "C" fn talmuiga_formatter_open_english_ranges_sized(
    alloc: Global,
    skeleton: &[u8],
    fault: &mut Fault,
    formatter: &mut Room,
) -> u32
    requires empty { formatter.old.held ≡ empty }
    ensures opens { OpensRanges english_locale skeleton.now english_tables formatter.new.held
        fault.new result }
{
    open_ranges(alloc, ENGLISH.as_bytes(), b"en", skeleton, fault, formatter)
}

/// Writes the range of two numbers, if its text fits, and sets the length of the text.
// promise: Two numbers have the text of their range, or a status.
// mutations: ranges_end_written_as_the_start, ranges_no_text_with_a_length
#[unsafe(no_mangle)]
pub extern "C" fn talmuiga_formatter_range_sized(
    alloc: Global,
    formatter: &mut Room,
    start: &[u8],
    end: &[u8],
    output: &mut [u8],
    length: &mut usize,
) -> u32
    ghost kept: { Kept }
    requires open { formatter.old.held ≡ holding kept }
    ensures written { IsRange kept start.now end.now output.old output.new length.new result }
    ensures handed_back { formatter.new.held ≡ holding kept }
{
    let lent = formatter.lend();
    let status = format_range_in(alloc, lent.kept(), start, end, output, length);
    formatter.back(lent);
    status
}

/// Closes a formatter that is open; its room is room again.
// promise: The room of a closed formatter is free again.
// mutations: kept_closed_with_its_mode_inside
#[unsafe(no_mangle)]
pub extern "C" fn talmuiga_formatter_close_sized(formatter: &mut Room)
    ghost kept: { Kept }
    requires open { formatter.old.held ≡ holding kept }
    ensures closed { formatter.new.held ≡ empty }
{
    drop(formatter.take());
}

/// Judges tables, and says in a text why they are rejected.
// promise: Tables are accepted, or rejected with a text.
// mutations: fault_refused_tables_told_as_accepted
#[unsafe(no_mangle)]
pub extern "C" fn talmuiga_tables_fault_sized(
    alloc: Global,
    tables: &[u8],
    output: &mut [u8],
    length: &mut usize,
) -> u32
    ensures { IsJudged tables.now output.old output.new length.new result }
{
    judge_in_words(alloc, tables, output, length)
}

/// Writes what tables have of a kind, a name in each line and each once, if it fits, and sets the
/// length.
// promise: A kind and tables determine the names that are listed.
// mutations: listed_twice
#[unsafe(no_mangle)]
pub extern "C" fn talmuiga_tables_list_sized(
    alloc: Global,
    tables: &[u8],
    kind: u32,
    output: &mut [u8],
    length: &mut usize,
) -> u32
    ensures { IsListed (listed_kind kind) tables.now output.old output.new length.new result }
{
    list_tables(alloc, tables, kind, output, length)
}

/// The number of the version: the first part times 10000, the second times 100, the third.
#[unsafe(no_mangle)]
pub extern "C" fn talmuiga_version() -> u32
    ensures { result ≡ version }
{
    200
}
