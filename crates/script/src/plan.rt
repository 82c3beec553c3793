// The flat list of steps that forms are expanded into.
ghost use Rattle.std.specs.Prelude.{◌≡◌, ◌<◌, ◌≤◌, Some, [], ◌∷◌, length, map, option_map, IfSome};
ghost use Rattle.scan.specs.Words.{said_of};
ghost use Rattle.script.specs.Plans.{nothing, size, Pushes, Adds, Repeats};

use scan::types::{ReaderFault, Step};
use std::alloc::Global;
use std::marker::Model;

const MOST_STEPS: usize = 4096;

// At most 4,096 steps, or none once there were more.
#[derive(Drop)]
pub struct Plan<'a> {
    steps: Option<Vec<Step<'a>>>,
}

// Clauses see what the steps say.
impl<'a> Model for Plan<'a> {
    ghost use Rattle.std.specs.Prelude.{List, map, option_map, Option};
    ghost use Rattle.scan.specs.Words.{Said, said_of};

    ghost Value = { Option (List Said) };

    ghost view = { λ p. option_map (λ v. map said_of v.items) p.steps };
}

impl<'a> Plan<'a> {
    pub fn new(heap: Global) -> Plan<'a>
        ensures { result ≡ Some [] }
    {
        Plan {
            steps: Some(Vec::new(heap)),
        }
    }

    // Whether there has been no step. A plan that had too many is not empty, and has none.
    pub fn is_empty(&self) -> bool
        ensures { result ≡ nothing self.now }
    {
        self.steps.as_ref().is_some_and(|steps| steps.is_empty())
    }

    pub fn len(&self) -> usize
        ensures { result ≡ size self.now }
    {
        self.steps.as_ref().map_or(0, |steps| steps.len())
    }

    // The steps, or none where there were too many.
    pub fn into_steps(self) -> Option<Vec<Step<'a>>>
        ensures { option_map (λ v. map said_of v.items) result ≡ self.entry }
    {
        self.steps
    }

    pub fn push(&mut self, step: Step<'a>) -> Result<(), ReaderFault>
        ensures { Pushes result self.old self.new (said_of step.entry ∷ []) }
    {
        match &mut self.steps {
            Some(steps) if steps.len() < MOST_STEPS => steps.push(step)?,
            _ => self.steps = None,
        }
        Ok(())
    }

    // The steps from `start` to `end` once more.
    fn add(&mut self, start: usize, end: usize) -> Result<(), ReaderFault>
        requires { IfSome self.old (λ ss. (start < end) × (end ≤ length ss)) }
        ensures { Adds result self.old self.new start end }
    {
        match &mut self.steps {
            Some(steps) if steps.len() + (end - start) <= MOST_STEPS => {
                steps.extend_from_within(start..end)?
            }
            _ => self.steps = None,
        }
        Ok(())
    }

    // The steps from `start` on, `count` times in the place of once, as long as there are not too many.
    pub fn repeat(&mut self, start: usize, count: u32) -> Result<(), ReaderFault>
        ensures { Repeats result self.old self.new start count }
    {
        let end = self.len();
        if start >= end {
            return Ok(());
        }
        for _ in 1..count {
            if self.steps.is_none() {
                return Ok(());
            }
            self.add(start, end)?;
        }
        Ok(())
    }
}
