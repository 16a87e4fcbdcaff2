ghost use Rattle.std.specs.Prelude.{◌≡◌, ◌≤◌, ◌<◌, Err, IfOk, None, Some, count_by, length, map, position};
ghost use Rattle.std.specs.Str.{bytes_eq};
ghost use Rattle.json_values.specs.Values.{value_of};
ghost use Rattle.serde_json.specs.View.{view};
ghost use Rattle.plan_changes.specs.Fits.{IsOfSchema};
ghost use Rattle.problem_faults.specs.Refusals.{RefusesFor};
ghost use Rattle.problem_settings.specs.Root.{format_of};
ghost use Rattle.plan_json.specs.Accepted.{problem_view, Reads, IsAccepted};
ghost use Rattle.plan_json.specs.Limits.{opens_object};
ghost use Rattle.plan_json.specs.Problem.{content_fault, facts_of, place_of_domain, problem_in, problem_of, problem_of_root};
ghost use Rattle.plan_json.specs.Seen.{domain_view, domain_views, FitsItsDomain, IsAcceptedBy};

use crate::domain::Domain;
use crate::limits::check_limits;
use crate::problem::Problem;
use json_values::{ReadFault, member, read_value};
use plan_rules::Book;
use problem_faults::ProblemFault;
use problem_records::read_records;
use problem_settings::{Format, check_root, read_settings, read_weights};
use serde_json::Value;
use std::alloc::Global;

/// The most bytes that a problem may have.
pub const BYTE_LIMIT: usize = 67_108_864;

/// The most objects that a problem's bytes may open. Each takes up to a kilobyte while they are read, so that no problem takes more
/// than some three gigabytes. One that is accepted has few more than a hundred thousand.
const OBJECT_LIMIT: usize = 3_000_000;

/// The member `facts` of a root that has it.
fn facts_of(root: &Value) -> &Value
    ensures { view result.now ≡ facts_of (view root.now) }
{
    match member(root, b"facts") {
        Some(facts) => facts,
        None => root,
    }
}

/// The problem of this domain that the root is, which has this format.
fn read_content<B: Book>(
    alloc: Global,
    root: &Value,
    format: Format,
    place: usize,
    domain: &Domain<B>,
) -> Result<Problem, ProblemFault>
    requires { format ≡ format_of (view root.now) }
    ensures refusal { RefusesFor (content_fault (domain_view domain.now) (view root.now)) result }
    ensures problem { let due = problem_in place (domain_view domain.now) (view root.now) in
        IfOk result (λ problem. problem_view problem ≡ due) }
    ensures accepted { IfOk result (IsAccepted domain.now.rules.defs domain.now.rules.caps) }
    ensures schema { IfOk result (λ problem. IsOfSchema domain.now.schema problem.plan) }
{
    let settings = read_settings(alloc, format, member(root, b"settings"))?;
    let defs = domain.rules.defs.as_slice();
    let weights = read_weights(alloc, defs, member(root, b"weights"))?;
    let records = read_records(alloc, &domain.schema, facts_of(root))?;
    check_limits(alloc, domain, &weights, &records.plan)?;
    Ok(Problem {
        domain: place,
        plan: records.plan,
        names: records.names,
        settings,
        weights,
    })
}

/// Whether this is the name of the domain.
fn is_named<B>(domain: &Domain<B>, name: &[u8]) -> bool
    ensures { result ≡ bytes_eq name.now domain.now.name }
{
    name == domain.name.as_slice()
}

/// The place of the first domain of this name.
fn domain_named<B>(domains: &[Domain<B>], name: &[u8]) -> Option<usize>
    ensures { result ≡ position (bytes_eq name.now) (map (λ d. d.name) domains.now) }
{
    for place in 0..domains.len() {
        if is_named(&domains[place], name) {
            return Some(place);
        }
    }
    None
}

/// The place of the first domain of the name that the root has.
fn domain_of<B>(domains: &[Domain<B>], root: &Value) -> Option<usize>
    ensures { result ≡ place_of_domain (domain_views domains.now) (view root.now) }
{
    let name = member(root, b"domain")?.as_str()?;
    domain_named(domains, name.as_bytes())
}

/// The problem that a root is.
fn read_root<B: Book>(
    alloc: Global,
    root: &Value,
    domains: &[Domain<B>],
) -> Result<Problem, ProblemFault>
    ensures problem { Reads (problem_of_root (domain_views domains.now) (view root.now)) result }
    ensures accepted { IfOk result (IsAcceptedBy domains.now) }
    ensures schema { IfOk result (FitsItsDomain domains.now) }
{
    let format = check_root(alloc, root)?;
    let Some(place) = domain_of(domains, root) else {
        return Err(ProblemFault::UnknownDomain);
    };
    read_content(alloc, root, format, place, &domains[place])
}

/// How many bytes open an object, or stand in a text and look so.
fn count_objects(bytes: &[u8]) -> usize
    ensures { result ≡ count_by opens_object bytes.now }
{
    bytes.iter().filter(|byte| **byte == b'{').count()
}

/// The value of a problem's bytes. Memory is wanting where they open too many objects, however much of it there is.
fn read_bounded(alloc: Global, bytes: &[u8]) -> Result<Value, ReadFault>
    ensures ok { IfOk result (λ value. value_of bytes.now ≡ Some (view value)) }
    ensures json { result ≡ Err ReadFault.Json → value_of bytes.now ≡ None }
    ensures many { 3000000 < count_by opens_object bytes.now → result ≡ Err ReadFault.Memory }
{
    if count_objects(bytes) > OBJECT_LIMIT {
        return Err(ReadFault::Memory);
    }
    read_value(alloc, bytes)
}

/// The problem that the bytes are, or the first refusal in the order that [`ProblemFault`] gives; only want of memory may
/// come before.
pub fn read_problem<B: Book>(
    alloc: Global,
    bytes: &[u8],
    domains: &[Domain<B>],
) -> Result<Problem, ProblemFault>
    ensures problem { Reads (problem_of (domain_views domains.now) bytes.now) result }
    ensures accepted { IfOk result (IsAcceptedBy domains.now) }
    ensures schema { IfOk result (FitsItsDomain domains.now) }
    ensures many { length bytes.now ≤ 67108864 → 3000000 < count_by opens_object bytes.now
        → result ≡ Err ProblemFault.Memory }
{
    if bytes.len() > BYTE_LIMIT {
        return Err(ProblemFault::TooLong);
    }
    match read_bounded(alloc, bytes) {
        Ok(root) => read_root(alloc, &root, domains),
        Err(ReadFault::Memory) => Err(ProblemFault::Memory),
        Err(ReadFault::Json) => Err(ProblemFault::Json),
    }
}
