//! What the lines of refusals say.
ghost use Rattle.std.specs.Prelude.{◌≡◌, ◌++◌, string_bytes, codes, IfOk};
ghost use Rattle.std.specs.Fmt.{decimal};
ghost use Rattle.hph_drive.specs.Lines as lines;

use crate::names::{construct_name, lex_name};
use hph_ast::{LimitName, Refusal, Spot};
use std::alloc::{AllocError, Global};

/// What shows a refusal.
pub fn refusal_text(alloc: Global, refusal: &Refusal) -> Result<String, AllocError>
    ensures { IfOk result (λ text. string_bytes text ≡ lines.refusal_text refusal.now) }
{
    match refusal {
        Refusal::Lex { kind, spot } => named_text(alloc, spot, "lex", lex_name(*kind)),
        Refusal::Construct { kind, spot } => {
            named_text(alloc, spot, "construct", construct_name(*kind))
        }
        Refusal::TooDeep { spot } => spot_text(alloc, spot, "too-deep"),
        Refusal::Syntax { spot } => spot_text(alloc, spot, "syntax"),
        Refusal::Missing { path } => format!(in alloc; "refused: {path}: missing"),
        Refusal::Limit { name, file } => limit_text(alloc, file, limit(*name)),
        Refusal::MixedByRef { first, second } => pair_text(alloc, first, second, "mixed-by-ref"),
        Refusal::PrivateShadow { first, second } => {
            pair_text(alloc, first, second, "private-shadow")
        }
        Refusal::RefArgument { spot } => spot_text(alloc, spot, "ref-argument"),
    }
}

/// A place and what stands there.
pub fn spot_text(alloc: Global, spot: &Spot, what: &str) -> Result<String, AllocError>
    ensures { IfOk result (λ text. string_bytes text ≡ lines.at_spot spot.now what.now) }
{
    let file = spot.file.as_str();
    let offset = spot.offset;
    format!(in alloc; "refused: {file}:{offset}: {what}")
}

fn named_text(alloc: Global, spot: &Spot, what: &str, name: &str) -> Result<String, AllocError>
    ensures { IfOk result (λ text. string_bytes text ≡ lines.at_spot spot.now (what.now ++ (codes " " ++ name.now))) }
{
    let file = spot.file.as_str();
    let offset = spot.offset;
    format!(in alloc; "refused: {file}:{offset}: {what} {name}")
}

fn pair_text(alloc: Global, first: &Spot, second: &Spot, what: &str) -> Result<String, AllocError>
    ensures { IfOk result (λ text. string_bytes text ≡ lines.at_spot first.now (what.now ++ (codes " " ++ lines.spot_text second.now))) }
{
    let file = first.file.as_str();
    let offset = first.offset;
    let other = second.file.as_str();
    let place = second.offset;
    format!(in alloc; "refused: {file}:{offset}: {what} {other}:{place}")
}

fn limit_text(alloc: Global, file: &str, limit: &str) -> Result<String, AllocError>
    ensures { IfOk result (λ text. string_bytes text ≡ codes "refused: " ++ (file.now ++ (codes ": limit " ++ limit.now))) }
{
    format!(in alloc; "refused: {file}: limit {limit}")
}

/// A limit's name and its number.
fn limit(name: LimitName) -> &'static str
    ensures { result.now ≡ lines.limit_text name }
{
    match name {
        LimitName::FileBytes => "file-bytes 1048576",
        LimitName::AllBytes => "all-bytes 4194304",
        LimitName::Files => "files 4096",
        LimitName::ModuleBytes => "module-bytes 67108864",
    }
}
