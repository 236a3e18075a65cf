//! The words of the kinds.

ghost use Rattle.std.specs.Prelude.{◌≡◌, IfSome, find, map};
ghost use Rattle.std.specs.Str.{bytes_eq};
ghost use Rattle.spa.specs.Aims.{aims, aim_word};
ghost use Rattle.office_model.specs.Kinds.{word_of};
ghost use Rattle.args.specs.Kinds.{import_kinds, report_kinds, report_word};

use office_model::{ImportKind, ReportKind};
use spa::AIMS;

/// The kinds of imports.
const IMPORT_KINDS: [ImportKind; 4] = [
    ImportKind::Supervisors,
    ImportKind::Projects,
    ImportKind::Students,
    ImportKind::Lists,
];

/// The kinds of reports.
const REPORT_KINDS: [ReportKind; 7] = [
    ReportKind::Profile,
    ReportKind::Loads,
    ReportKind::Unplaced,
    ReportKind::Placements,
    ReportKind::Offers,
    ReportKind::Missing,
    ReportKind::Text,
];

/// Returns the word of a kind of reports.
fn report_word(kind: ReportKind) -> &'static str
    ensures { result.now ≡ report_word kind }
{
    match kind {
        ReportKind::Profile => "profile",
        ReportKind::Loads => "loads",
        ReportKind::Unplaced => "unplaced",
        ReportKind::Placements => "placements",
        ReportKind::Offers => "offers",
        ReportKind::Missing => "missing",
        ReportKind::Text => "text",
    }
}

/// Returns the words of the kinds of imports.
pub(crate) fn import_words() -> [&'static str; 4]
    ensures { map (λ w. w.now) result ≡ map word_of import_kinds }
{
    let [first, second, third, fourth] = IMPORT_KINDS;
    [first.word(), second.word(), third.word(), fourth.word()]
}

/// Returns the words of the kinds of reports.
pub(crate) fn report_words() -> [&'static str; 7]
    ensures { map (λ w. w.now) result ≡ map report_word report_kinds }
{
    let [first, second, third, fourth, fifth, sixth, seventh] = REPORT_KINDS;
    [
        report_word(first),
        report_word(second),
        report_word(third),
        report_word(fourth),
        report_word(fifth),
        report_word(sixth),
        report_word(seventh),
    ]
}

/// Returns the words of the aims.
pub(crate) fn aim_words() -> [&'static str; 2]
    ensures { map (λ w. w.now) result ≡ map aim_word aims }
{
    let [first, second] = AIMS;
    [first.word(), second.word()]
}

/// Returns the kind of imports that has this word.
pub(crate) fn import_kind(word: &str) -> Option<ImportKind>
    ensures { result ≡ find (λ k. bytes_eq (word_of k) word.now) import_kinds }
{
    IMPORT_KINDS.iter().copied().find(|k| k.word() == word)
}

/// Returns the kind of reports that has this word.
pub(crate) fn report_kind(word: &str) -> Option<ReportKind>
    ensures { result ≡ find (λ k. bytes_eq (report_word k) word.now) report_kinds }
{
    REPORT_KINDS
        .iter()
        .copied()
        .find(|k| report_word(*k) == word)
}
