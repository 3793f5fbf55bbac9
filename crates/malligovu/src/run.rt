// A run of the program: its memory, and what each read of its input leads to. All that a read answers is written before the next.
ghost use Rattle.std.specs.Prelude.{◌≤◌};

use std::io::Read;
use std::time::Clock;
use stdio::Outcome;
use stream::State;

// What is remembered between reads, and the room for answers.
#[derive(Drop)]
pub struct Run {
    state: State,
    line: [u8; 513],
    out: [u8; 262144],
    ghost held: { state.held ≤ 513 },
}

impl Run {
    ghost use Rattle.std.specs.Prelude.{◌≡◌, ◌≤◌, [], length};
    ghost use Rattle.lines.specs.Memory.{start, end_says};
    ghost use Rattle.stream.specs.Stepped.{memory_of};
    ghost use Rattle.stdio.specs.Outcome.{Within};
    ghost use Rattle.malligovu.specs.Taken.{Took, ReadsOn, Answers, Follows, Turns};

    // Nothing is read yet.
    pub fn new() -> Self
        ensures { memory_of result.state result.line ≡ start }
    {
        Run {
            state: stream::start(),
            line: [0; 513],
            out: [0; 262144],
        }
    }

    // What the end of the input adds. Whether it could be written or not, nothing follows.
    fn answer_end(&mut self, rt: &(impl Clock + Print))
        ensures { Took (memory_of self.old.state self.old.line) [] (end_says (memory_of self.old.state self.old.line)) self.old.out
            self.new.state self.new.line self.new.out }
    {
        let wrote = stream::end(self.state, &self.line, &mut self.out);
        stdio::write_all(rt, &self.out[..wrote]);
    }

    // Whether there is a further read: all was written, and the program has not ended.
    fn reads_on(&self, written: bool) -> bool
        ensures { ReadsOn written self.now.state.phase result }
    {
        written && !stream::ended(self.state)
    }

    // What the bytes of a read answer. Where not all of it could be written, there is no further read.
    fn answer_bytes(&mut self, rt: &(impl Clock + Print), bytes: &[u8]) -> bool
        requires { length bytes.now ≤ 4096 }
        ensures { Answers (memory_of self.old.state self.old.line) bytes.now self.old.out self.new.state result self.new.line self.new.out }
    {
        let stepped = stream::step(self.state, &mut self.line, bytes, &mut self.out);
        self.state = stepped.state;
        let taken = stdio::write_all(rt, &self.out[..stepped.wrote]);
        self.reads_on(taken == stepped.wrote)
    }

    // What follows from a read, and whether there is a further one.
    fn follow(&mut self, rt: &(impl Clock + Print), got: Outcome, block: &[u8; 4096]) -> bool
        requires { Within got block.now }
        ensures { Follows got (memory_of self.old.state self.old.line) block.now self.old.out
            self.new.state result self.new.line self.new.out }
    {
        match got {
            Outcome::Moved(0) => {
                self.answer_end(rt);
                false
            }
            Outcome::Moved(n) => self.answer_bytes(rt, &block[..n]),
            Outcome::Later => true,
            Outcome::Failed => false,
        }
    }

    // One read, and all that follows from it.
    fn take_block(
        &mut self,
        rt: &(impl Clock + Print),
        input: &mut impl Read,
        block: &mut [u8; 4096],
    ) -> bool
        ensures { Turns (memory_of self.old.state self.old.line) block.new self.old.out self.new.state result self.new.line self.new.out }
    {
        let got = stdio::read(rt, input, block);
        self.follow(rt, got, block)
    }

    // A proved loop has to end, and nothing says that an input does: it makes at most so many reads, a number that no run uses up.
    pub fn answer_input(&mut self, rt: &(impl Clock + Print), input: &mut impl Read) {
        let mut block = [0; 4096];
        for _ in 0..u64::MAX {
            if !self.take_block(rt, input, &mut block) {
                return;
            }
        }
    }
}
