//! Tables of runs are played and compared with the expected output.

use crate::tests::expected::difference;
use crate::tests::part::Left;
use crate::tests::play::play;
use crate::tests::run::{Inputs, Output, Run, Words};
use crate::tests::stops::{Stop, first_unexpected_stop};
use crate::tests::turns::{first_lines, first_unexpected_call, first_unexpected_prefix};
use std::alloc::{AllocError, Global};
use std::process::Abort;

/// Runs that were played, and what they left.
#[derive(Drop)]
pub struct Table {
    alloc: Global,
    lefts: Vec<Left>,
}

impl Table {
    pub fn new(alloc: Global) -> Self {
        Table {
            alloc,
            lefts: Vec::new(alloc),
        }
    }

    /// Plays a run, and compares what it comes to with the expected output.
    pub fn play(&mut self, rt: &impl Abort, run: &Run<'_>) -> Result<(), AllocError> {
        let alloc = self.alloc;
        let left = play(alloc, run, &self.lefts)?;
        let differs = difference(alloc, run, &left, &self.lefts)?;
        assert!(rt;
            differs.is_none(),
            "{}, run {}: {differs:?}, with status {} and {:?}",
            run.name,
            self.lefts.len(),
            left.status,
            str::from_utf8(first_lines(&left.written, 20))
        );
        self.play_in_turn(rt, run, &left)?;
        self.play_prefixes(rt, run, &left)?;
        self.lefts.push(left)?;
        Ok(())
    }

    /// Plays a run again with calls that fail in turn, where it asks for that.
    fn play_in_turn(&self, rt: &impl Abort, run: &Run<'_>, whole: &Left) -> Result<(), AllocError> {
        for what in run.in_turn {
            let unexpected = first_unexpected_call(self.alloc, run, *what, whole, &self.lefts)?;
            assert!(rt;
                unexpected.is_none(),
                "{}: {what:?} at {unexpected:?}",
                run.name
            );
        }
        Ok(())
    }

    /// Plays a run again of each prefix of its input, where it asks for that.
    fn play_prefixes(
        &self,
        rt: &impl Abort,
        run: &Run<'_>,
        whole: &Left,
    ) -> Result<(), AllocError> {
        if run.prefixes {
            let unexpected = first_unexpected_prefix(self.alloc, run, whole, &self.lefts)?;
            assert!(rt;
                unexpected.is_none(),
                "{}: a prefix of {unexpected:?} bytes",
                run.name
            );
        }
        Ok(())
    }

    /// Plays a run of each of these inputs.
    pub fn play_inputs(
        &mut self,
        rt: &impl Abort,
        run: &Run<'static>,
        inputs: Inputs,
    ) -> Result<(), AllocError> {
        for (input, status, line) in inputs {
            self.play(rt, &run.with_input(input, *status, Output::Line(line)))?;
        }
        Ok(())
    }

    /// Plays a run of each of these words.
    pub fn play_words(
        &mut self,
        rt: &impl Abort,
        run: &Run<'static>,
        words: Words,
    ) -> Result<(), AllocError> {
        for (words, line) in words {
            self.play(rt, &run.with_words(words, Output::Line(line)))?;
        }
        Ok(())
    }

    /// Plays these runs in their order.
    pub fn play_all(&mut self, rt: &impl Abort, runs: &[Run<'_>]) -> Result<(), AllocError> {
        for run in runs {
            self.play(rt, run)?;
        }
        Ok(())
    }

    /// Plays runs that stop at each call of their disk, and what comes after each stop.
    pub fn play_stops(&mut self, rt: &impl Abort, stops: &[Stop<'_>]) -> Result<(), AllocError> {
        for stop in stops {
            let unexpected = first_unexpected_stop(self.alloc, stop, &mut self.lefts)?;
            assert!(rt; unexpected.is_none(), "{}: {unexpected:?}", stop.name);
        }
        Ok(())
    }
}
