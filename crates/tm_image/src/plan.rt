//! A plan: the slices that a machine is to run.

ghost use Rattle.std.specs.Prelude.{◌≡◌, ◌<◌, ◌≤◌, ◌-◌, ◌^◌, [], ◌∷◌, length, map, All, IfOk};
ghost use Rattle.tm_lines.specs.Steps.{Answers, Gives};
ghost use Rattle.tm_image.specs.Plan.{IsSlice, ports_in, slice_in, new_slice, plan_of};

use std::alloc::Global;
use std::marker::Model;
use tm_lines::{Fault, Format, Reason, below_header, number_at, spells, take_lines};
use tm_marker::{Items, LONGEST_SLICE, Slice};

/// Why a plan was not read.
pub type PlanFault = Fault;

/// The keyword, the length, the mask and the ports.
const SLICE_TOKENS: usize = 7;

/// The mask of all lines.
const ALL_LINES: u32 = 0xffff;

/// The slices of a plan, in order: each with a length of at most 1,048,576 and a mask of 16 lines.
#[derive(Debug, Drop)]
pub struct Plan {
    slices: Items<Slice>,
}

impl Model for Plan {
    ghost use Rattle.std.specs.Prelude.{List, All};
    ghost use Rattle.tm_marker.specs.declared.entries.Slice.{Slice};
    ghost use Rattle.tm_image.specs.Plan.{IsSlice};

    ghost Value = { List Slice };

    ghost view = { λ plan. plan.slices };

    ghost invariant = { λ plan. All IsSlice plan.slices };
}

impl Plan {
    /// The slices, in order.
    pub fn slices(&self) -> &[Slice]
        ensures value { result.now ≡ self.now }
        ensures sound { All IsSlice self.now }
    {
        self.slices.as_slice()
    }

    fn add(&mut self, slice: Slice) -> Result<(), Reason>
        ensures { Answers (λ _. self.new) result (new_slice self.old slice) }
    {
        if slice.length > LONGEST_SLICE || slice.mask > ALL_LINES {
            return Err(Reason::Range);
        }
        self.slices.push(slice)?;
        Ok(())
    }
}

impl Format for Plan {
    ghost use Rattle.tm_image.specs.Plan.{plan_line};

    ghost next = { plan_line };

    #[tactic(auto, using(crate::proofs::Long::long_slice))]
    fn most_tokens() -> Option<usize> {
        Some(SLICE_TOKENS)
    }

    fn take(&mut self, _alloc: Global, tokens: &[&[u8]]) -> Result<(), Reason> {
        match tokens {
            [keyword, words @ ..] if spells(keyword, b"slice") => self.add(slice_said(words)?),
            _ => Err(Reason::Form),
        }
    }
}

/// Four port words.
fn four_ports(p0: &[u8], p1: &[u8], p2: &[u8], p3: &[u8]) -> Result<[u32; 4], Reason>
    ensures { result ≡ ports_in (p0.now ∷ p1.now ∷ p2.now ∷ p3.now ∷ []) }
{
    Ok([
        number_at(p0)?,
        number_at(p1)?,
        number_at(p2)?,
        number_at(p3)?,
    ])
}

/// The port words, which are 0 where none is given.
fn ports_said(words: &[&[u8]]) -> Result<[u32; 4], Reason>
    ensures { result ≡ ports_in (map (λ word. word.now) words.now) }
{
    match words {
        [] => Ok([0; 4]),
        [p0, p1, p2, p3] => four_ports(p0, p1, p2, p3),
        _ => Err(Reason::Form),
    }
}

/// What the words of a line `slice` say: LENGTH, MASK, and the ports or none of them.
fn slice_said(words: &[&[u8]]) -> Result<Slice, Reason>
    ensures { result ≡ slice_in (map (λ word. word.now) words.now) }
{
    match words {
        [length, mask, ports @ ..] => {
            let ports = ports_said(ports)?;
            Ok(Slice {
                length: number_at(length)?,
                mask: number_at(mask)?,
                ports,
            })
        }
        _ => Err(Reason::Form),
    }
}

/// Reads a plan: below the header `tmplan 1`, lines `slice LENGTH MASK` or
/// `slice LENGTH MASK P0 P1 P2 P3`, with a LENGTH of at most 1,048,576 and a MASK of 16 bits. Port
/// words that are not given are 0.
///
/// # Errors
///
/// The first line that is refused, and why; `Missing` where no line is the header; `Memory` where
/// there is too little memory for the plan or for the tokens of a line.
#[tactic(auto, using(crate::proofs::Counts::few_slices))]
pub fn read_plan(alloc: Global, bytes: &[u8]) -> Result<Plan, PlanFault>
    requires { length bytes.now < 2 ^ 32 - 1 }
    ensures read { Gives (λ plan. plan) result (plan_of bytes.now) }
    ensures sound { IfOk result (λ plan. All IsSlice plan) }
    ensures few { IfOk result (λ plan. length plan ≤ length bytes.now) }
{
    slices_of(alloc, bytes)
}

/// What the lines of a plan say.
#[tactic(auto, unfolding(crate::specs::Plan::plan_of))]
fn slices_of(alloc: Global, bytes: &[u8]) -> Result<Plan, PlanFault>
    requires { length bytes.now < 2 ^ 32 - 1 }
    ensures { Gives (λ plan. plan) result (plan_of bytes.now) }
{
    let (first, body) = below_header(alloc, b"tmplan", b"1", bytes)?;
    let mut plan = Plan {
        slices: Items::new(alloc),
    };
    take_lines(alloc, &mut plan, first, body)?;
    Ok(plan)
}
