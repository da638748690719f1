// One step of a process, line by line: the core of its row and what it sees of the others go in, and what comes of them goes out. Line 4 is
// given the next token besides. The matches on the line are a required form. What a line asks of an index or of its line is a fact of the core, which
// is given to it by itself.
ghost use Rattle.std.specs.Prelude.{◌≡◌, ℕ, ◌≤◌, ℤ};
ghost use Rattle.fields.specs.Numbers.{slots, none};
ghost use Rattle.tokens.specs.Count.{Count};
ghost use Rattle.tokens.specs.Answers.{judged};
ghost use Rattle.machine.specs.Ready.{OtherLine};
ghost use Rattle.machine.specs.Setters.{with_line, with_pivot, with_token};
ghost use Rattle.machine.specs.Lines.{moves, refuses, next_other, goes_on, passes, line1, line2, line3, line4, line5, line6, line7};
ghost use Rattle.machine.specs.Lines.{line8, line9, line10, any_line};

use crate::{Seen, Went};
use fields::{NONE, Refusal, Value};
use table::Core;

// The next larger number other than i.
#[tactic(auto, unfolding(crate::specs::Lines::next_other))]
fn next_other(i: u8, j: u8) -> u8
    requires { j ≤ slots }
    ensures { result ≡ next_other i j }
{
    if j + 1 == i {
        return j + 2;
    }
    j + 1
}

// The token is taken, of either machine, and the pivot given up.
fn takes_token(token: Value, c: Core) -> Core
    ensures { result ≡ with_line 5 (with_pivot none (with_token token.0 c)) }
{
    Core {
        token: token.0,
        pivot: NONE,
        line: 5,
        ..c
    }
}

// Process i of n at its step: the machine that it is of, and what it sees of the others. The core of its row is given to each line, since a
// run that copied it here before the `match` was slower.
#[derive(Clone, Copy)]
pub(crate) struct Process {
    pub(crate) algorithm: u8,
    pub(crate) n: u8,
    pub(crate) i: u8,
    pub(crate) seen: Seen,
    ghost counted: { Count n },
}

impl Process {
    // The step changed the core.
    fn moved(self, core: Core) -> Went
        ensures { result ≡ moves self.seen.x core }
    {
        Went {
            core,
            x: self.seen.x,
            mark: 1,
            stop: None,
        }
    }

    // The step changed nothing: it waits, or is refused.
    fn kept(self, stop: Option<Refusal>, c: Core) -> Went
        ensures { result ≡ refuses stop self.seen c }
    {
        Went {
            core: c,
            x: self.seen.x,
            mark: 0,
            stop,
        }
    }

    // To line 6 with the next larger number other than i, or to line 8 if there is none.
    #[tactic(auto, unfolding(crate::specs::Lines::goes_on))]
    fn goes_on(self, j: u8, c: Core) -> Core
        requires { j ≤ slots }
        ensures { result ≡ goes_on self.n self.i j c }
    {
        let next = next_other(self.i, j);
        if next <= self.n {
            return Core {
                index: next,
                line: 6,
                ..c
            };
        }
        Core {
            index: 0,
            line: 8,
            ..c
        }
    }

    // 1: choosing becomes 1, index 1, line 2.
    fn line_1(self, c: Core) -> Went
        ensures { result ≡ line1 self.seen c }
    {
        self.moved(Core {
            choosing: 1,
            index: 1,
            line: 2,
            ..c
        })
    }

    // 2, index j: index j + 1, or, if j = n, index 0 and line 3. (`with_read` sets the read cell.)
    #[tactic(auto, unfolding(crate::specs::Lines::line2))]
    pub(crate) fn line_2(self, c: Core) -> Went
        requires { c.index ≤ slots }
        ensures { result ≡ line2 self.n self.seen c }
    {
        let j = c.index;
        if j == self.n {
            return self.moved(Core {
                index: 0,
                line: 3,
                ..c
            });
        }
        self.moved(Core { index: j + 1, ..c })
    }

    // 3: pivot takes X; line 4.
    fn line_3(self, c: Core) -> Went
        ensures { result ≡ line3 self.seen c }
    {
        self.moved(Core {
            pivot: self.seen.x,
            line: 4,
            ..c
        })
    }

    // 4: token takes the next token; pivot becomes -1; line 5. Where the next token is refused, by 5, so is the step. (`cleared` sets the
    // read cells.) It is given the answer of `next_token` for a token, and does with it what line 4 does with the token.
    #[tactic(auto, unfolding(crate::specs::Lines::line4))]
    pub(crate) fn line_4(self, next: Result<Value, Refusal>, c: Core) -> Went
        ensures { (algorithm : ℕ) (token : ℤ) → next ≡ judged algorithm token → result ≡ line4 algorithm token self.seen c }
    {
        match next {
            Ok(token) => self.moved(takes_token(token, c)),
            Err(refusal) => self.kept(Some(refusal), c),
        }
    }

    // 5: choosing becomes 0; then on to the smallest number other than i.
    #[tactic(auto, unfolding(crate::specs::Lines::line5))]
    fn line_5(self, c: Core) -> Went
        ensures { result ≡ line5 self.n self.i self.seen c }
    {
        self.moved(self.goes_on(0, Core { choosing: 0, ..c }))
    }

    // 6, index j: if choosing j is 0, line 7; else the step waits.
    #[tactic(auto, unfolding(crate::specs::Lines::line6))]
    fn line_6(self, c: Core) -> Went
        ensures { result ≡ line6 self.seen c }
    {
        if self.seen.choosing == 0 {
            return self.moved(Core { line: 7, ..c });
        }
        self.kept(None, c)
    }

    // Token j.
    fn token_seen(self) -> Value
        ensures { result.0 ≡ self.seen.token }
    {
        Value(self.seen.token)
    }

    // Whether token j is -1 or i goes before j.
    #[tactic(auto, using(tokens::proofs::Answers::before_counted))]
    fn passes(self, c: Core) -> bool
        ensures { result ≡ passes self.algorithm self.n self.i self.seen c }
    {
        if self.token_seen().is_none() {
            return true;
        }
        let own = table::token_of(c);
        tokens::goes_before(
            self.algorithm,
            self.n,
            self.i,
            own,
            c.index,
            self.token_seen(),
        )
    }

    // 7, index j: if token j is -1 or i goes before j, on to the next larger number; else the step waits.
    #[tactic(auto, unfolding(crate::specs::Lines::line7))]
    fn line_7(self, c: Core) -> Went
        requires { c.index ≤ slots }
        ensures { result ≡ line7 self.algorithm self.n self.i self.seen c }
    {
        if self.passes(c) {
            return self.moved(self.goes_on(c.index, c));
        }
        self.kept(None, c)
    }

    // Lines 6 and 7.
    #[tactic(auto, unfolding(crate::specs::Lines::any_line, crate::specs::Lines::line_step))]
    pub(crate) fn waiting_line(self, c: Core) -> Went
        requires index { c.index ≤ slots }
        requires from { 6 ≤ c.line }
        requires to { c.line ≤ 7 }
        ensures { (next : ℤ) → result ≡ any_line self.algorithm self.n self.i next self.seen c }
    {
        match c.line {
            6 => self.line_6(c),
            _ => self.line_7(c),
        }
    }

    // 8: X takes the token; line 9. This step is the entry.
    fn line_8(self, c: Core) -> Went
        ensures { result ≡ line8 c }
    {
        Went {
            x: c.token,
            ..self.moved(Core { line: 9, ..c })
        }
    }

    // 9: line 10.
    fn line_9(self, c: Core) -> Went
        ensures { result ≡ line9 self.seen c }
    {
        self.moved(Core { line: 10, ..c })
    }

    // 10: token becomes -1; line 1.
    fn line_10(self, c: Core) -> Went
        ensures { result ≡ line10 self.seen c }
    {
        self.moved(Core {
            token: NONE,
            line: 1,
            ..c
        })
    }

    // Of the doorway, lines 2 to 5, those that are not called by themselves: 3 and 5.
    #[tactic(auto, unfolding(crate::specs::Lines::any_line, crate::specs::Lines::line_step))]
    fn doorway(self, c: Core) -> Went
        requires from { 2 ≤ c.line }
        requires to { c.line ≤ 5 }
        requires other { OtherLine c }
        ensures { (next : ℤ) → result ≡ any_line self.algorithm self.n self.i next self.seen c }
    {
        match c.line {
            3 => self.line_3(c),
            _ => self.line_5(c),
        }
    }

    // Lines 8 to 10.
    #[tactic(auto, unfolding(crate::specs::Lines::any_line, crate::specs::Lines::line_step))]
    fn critical(self, c: Core) -> Went
        requires from { 8 ≤ c.line }
        requires to { c.line ≤ 10 }
        ensures { (next : ℤ) → result ≡ any_line self.algorithm self.n self.i next self.seen c }
    {
        match c.line {
            8 => self.line_8(c),
            9 => self.line_9(c),
            _ => self.line_10(c),
        }
    }

    // Every line but 2, 4, 6 and 7, which are called by themselves. A well-formed row stands at one of the ten; the last arm, to which none
    // comes, waits as the definition does.
    #[tactic(auto, unfolding(crate::specs::Lines::any_line, crate::specs::Lines::line_step))]
    pub(crate) fn other_line(self, c: Core) -> Went
        requires { OtherLine c }
        ensures { (next : ℤ) → result ≡ any_line self.algorithm self.n self.i next self.seen c }
    {
        match c.line {
            1 => self.line_1(c),
            2..=5 => self.doorway(c),
            8..=10 => self.critical(c),
            _ => self.kept(None, c),
        }
    }
}
