ghost use Rattle.std.specs.Prelude.{◌≡◌, find};
ghost use Rattle.std.specs.Option.{option_copied};
ghost use Rattle.route_events.specs.Dispatch.{first_of};
ghost use Rattle.route_choice.specs.Candidates.{is_by_alt, is_basis, best_of, number_of};

use alt_base::ListOf;

/// What a connection rests on as a carrier of an origin's requests: on the alternative that it was opened for, on
/// something else, or on nothing of its own.
#[derive(Clone, Copy, Debug, PartialEq, Eq)]
pub enum BasisKind {
    ByAlt,
    ByOther,
    Without,
}

/// A connection that could carry a request, by its number, and its basis for the request's origin.
#[derive(Clone, Copy, Debug, PartialEq, Eq)]
pub struct Candidate {
    pub conn: u64,
    pub basis: BasisKind,
}

/// Candidates, in the order of their connections' opening.
pub type Candidates = ListOf<Candidate>;

fn is_by_alt(basis: BasisKind) -> bool
    ensures { result ≡ is_by_alt basis }
{
    match basis {
        BasisKind::ByAlt => true,
        _ => false,
    }
}

fn is_basis(basis: BasisKind) -> bool
    ensures { result ≡ is_basis basis }
{
    match basis {
        BasisKind::Without => false,
        _ => true,
    }
}

fn first_by_alt(candidates: &[Candidate]) -> Option<&Candidate>
    ensures { option_copied result ≡ find (λ c. is_by_alt c.basis) candidates.now }
{
    candidates.iter().find(|c| is_by_alt(c.basis))
}

fn first_with_basis(candidates: &[Candidate]) -> Option<&Candidate>
    ensures { option_copied result ≡ find (λ c. is_basis c.basis) candidates.now }
{
    candidates.iter().find(|c| is_basis(c.basis))
}

fn first_number(candidates: &[Candidate]) -> Option<u64>
    ensures { result ≡ number_of (first_of candidates.now) }
{
    match candidates {
        [] => None,
        [candidate, ..] => Some(candidate.conn),
    }
}

/// The number of the best candidate's connection: of the first with a basis by an alternative, else of the first with
/// another basis, else of the first; None exactly where there is no candidate. It takes no memory.
pub fn best(candidates: &Candidates) -> Option<u64>
    ensures { result ≡ number_of (best_of candidates.now) }
{
    let candidates = candidates.as_slice();
    if let Some(candidate) = first_by_alt(candidates) {
        return Some(candidate.conn);
    }
    if let Some(candidate) = first_with_basis(candidates) {
        return Some(candidate.conn);
    }
    first_number(candidates)
}
