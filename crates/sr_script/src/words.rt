//! The words of a trace.
ghost use Rattle.std.specs.Prelude.{◌≡◌, List};
ghost use Rattle.sr_script.specs.TraceText.{why_text, cause_text, fail_text, kind_text, mode_text, kept_text};

use crate::line::{FailKind, RequestKind};
use sr_cell::cause::Cause;
use sr_cell::fault::Why;

/// The word of a reason.
pub fn why_word(why: Why) -> &'static str
    ensures { result.now ≡ why_text why }
{
    match why {
        Why::LongText => "long-text",
        Why::BadToken => "bad-token",
        Why::Grammar => "grammar",
        Why::Deep => "deep",
        Why::UnknownTable => "unknown-table",
        Why::UnknownColumn => "unknown-column",
        Why::Ambiguous => "ambiguous",
        Why::WrongType => "wrong-type",
        Why::OutOfDomain => "out-of-domain",
        Why::NotKeyJoin => "not-key-join",
        Why::Repeated => "repeated",
        Why::WrongCount => "wrong-count",
        Why::Mixed => "mixed",
        Why::TooWide => "too-wide",
        Why::TooManyTables => "too-many-tables",
        Why::NotAWrite => "not-a-write",
        Why::NotAQuery => "not-a-query",
        Why::DuplicateKey => "duplicate-key",
        Why::DomainCell => "domain-cell",
        Why::LongCell => "long-cell",
        Why::KeyChange => "key-change",
        Why::TableFull => "table-full",
        Why::TooManyChanges => "too-many-changes",
        Why::DuplicateName => "duplicate-name",
        Why::TooManyColumns => "too-many-columns",
        Why::NoKey => "no-key",
        Why::BadDomain => "bad-domain",
        Why::BadHeader => "bad-header",
        Why::BadRecord => "bad-record",
        Why::BadNumber => "bad-number",
        Why::BadUtf8 => "bad-utf8",
        Why::BadNull => "bad-null",
        Why::NullCell => "null-cell",
    }
}

/// The word of a cause.
pub fn cause_word(cause: Cause) -> &'static str
    ensures { result.now ≡ cause_text cause }
{
    match cause {
        Cause::Rows => "rows",
        Cause::Regions => "regions",
        Cause::Pieces => "pieces",
        Cause::Absorbed => "absorbed",
        Cause::Asked => "asked",
        Cause::Lapsed => "lapsed",
        Cause::Fresh => "fresh",
    }
}

/// The word of what a cut ended.
pub fn fail_word(kind: FailKind) -> &'static str
    ensures { result.now ≡ fail_text kind }
{
    match kind {
        FailKind::Query => "query",
        FailKind::Write => "write",
        FailKind::Resume => "resume",
    }
}

/// The word of a request.
pub fn kind_word(kind: RequestKind) -> &'static str
    ensures { result.now ≡ kind_text kind }
{
    match kind {
        RequestKind::Hello => "hello",
        RequestKind::Resume => "resume",
        RequestKind::Ask => "ask",
        RequestKind::Write => "write",
    }
}

/// The word of a mode: an ask starts anew, or asks more.
pub fn mode_word(fresh: bool) -> &'static str
    ensures { result.now ≡ mode_text fresh }
{
    if fresh { "fresh" } else { "more" }
}

/// The word of a welcome: the server still knew what the client has, or the client begins anew.
pub fn kept_word(kept: bool) -> &'static str
    ensures { result.now ≡ kept_text kept }
{
    if kept { "kept" } else { "fresh" }
}
