// Questions to a finished table: a primitive's name, and its finish. The table may hold anything.
#![tactic(auto)]

ghost use Rattle.std.specs.Prelude.{◌≡◌};
ghost use Rattle.finish.specs.Answer.{finish_answer};
ghost use Rattle.finish.specs.Follow.{Follows, link_of, reached_of};
ghost use Rattle.finish.specs.Question.{name_refusal, name_test, shown_name};
ghost use Rattle.finish.specs.Walk.{finish_of, walk_from};
ghost use Rattle.table.specs.Question.{refusal_number};
ghost use Rattle.table.specs.View.{view_of};

use scene::Reason;
use std::ops::ControlFlow;
use table::{KIND, MODIFIER, NAME, NAME_LENGTH};

// What a walk comes to: a material's number, 0 for none, and how many links it followed.
#[derive(Clone, Copy)]
pub struct Reached {
    pub material: usize,
    pub links: usize,
}

// Why a walk comes to nothing, and the count of links that is told with the reason.
#[derive(Clone, Copy)]
pub struct Stopped {
    pub reason: Reason,
    pub links: usize,
}

// Refuses a name of no bytes, or outside the text.
fn name_test(text: &[u8], place: usize, len: usize) -> Result<(), Reason>
    ensures { refusal_number result ≡ name_test text.now place len }
{
    if len == 0 {
        return Err(Reason::BadTable);
    }
    if text.len() < place {
        return Err(Reason::BadTable);
    }
    if text.len() - place < len {
        return Err(Reason::BadTable);
    }
    Ok(())
}

// Whether a primitive's name can be shown.
pub fn name_refusal(text: &[u8], records: &[u32], count: usize, number: usize) -> Result<(), Reason>
    ensures { refusal_number result ≡ name_refusal text.now records.now count number }
{
    table::number_refusal(records, count, number)?;
    let place = table::field(records, number, NAME) as usize;
    let len = table::field(records, number, NAME_LENGTH) as usize;
    name_test(text, place, len)
}

// A primitive's name, as a part of the text; an empty part where it is refused.
pub fn name<'a>(text: &'a [u8], records: &[u32], count: usize, number: usize) -> &'a [u8]
    ensures { result.now ≡ shown_name text.now records.now count number }
{
    match name_refusal(text, records, count, number) {
        Ok(()) => table::name_of(text, records, number),
        Err(_) => lexer::part(text, 0, 0),
    }
}

// What the primitive of a type comes to, reached by so many links: the walk ends there, or goes on from it.
fn link_to(kind: u32, at: usize, links: usize) -> ControlFlow<Result<Reached, Stopped>, usize>
    ensures { link_of result ≡ reached_of kind at links }
{
    if kinds::is_modifier(kind) {
        if kinds::is_material(kind) {
            return ControlFlow::Break(Ok(Reached {
                material: at,
                links,
            }));
        }
        return ControlFlow::Continue(at);
    }
    let stopped = Stopped {
        reason: Reason::BadTable,
        links: 0,
    };
    ControlFlow::Break(Err(stopped))
}

// Follows the modifier link of a primitive, after so many links.
#[tactic(auto, using(crate::proofs::WalkLaws::follows))]
fn follow(
    records: &[u32],
    at: usize,
    links: usize,
    allowance: usize,
) -> ControlFlow<Result<Reached, Stopped>, usize>
    ensures { Follows (view_of records.now) at links allowance (link_of result) }
{
    let link = table::field(records, at, MODIFIER) as usize;
    if link == 0 {
        return ControlFlow::Break(Ok(Reached { material: 0, links }));
    }
    if at <= link {
        return ControlFlow::Break(Err(Stopped {
            reason: Reason::BadTable,
            links: 0,
        }));
    }
    if allowance <= links {
        return ControlFlow::Break(Err(Stopped {
            reason: Reason::AllowanceUsedUp,
            links,
        }));
    }
    link_to(table::field(records, link, KIND), link, links + 1)
}

// The walk from a primitive. No index is counted: links are followed, and `links` says how many.
fn walk(records: &[u32], number: usize, allowance: usize) -> Result<Reached, Stopped>
    ensures { finish_answer result ≡ walk_from (view_of records.now) allowance 0 number }
{
    let mut at = number;
    let mut links = 0;
    loop {
        match follow(records, at, links, allowance) {
            ControlFlow::Break(finish) => {
                return finish;
            }
            ControlFlow::Continue(m) => {
                at = m;
                links += 1;
            }
        }
    }
}

// The first material reached from a primitive over at most `allowance` links.
pub fn finish_of(
    records: &[u32],
    count: usize,
    number: usize,
    allowance: usize,
) -> Result<Reached, Stopped>
    ensures { finish_answer result ≡ finish_of records.now count number allowance }
{
    match table::number_refusal(records, count, number) {
        Ok(()) => walk(records, number, allowance),
        Err(reason) => Err(Stopped { reason, links: 0 }),
    }
}
