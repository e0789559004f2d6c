// A session: lines are read one by one, and each condition is answered at its goal.
ghost use Rattle.std.specs.Prelude.{◌≡◌, ◌+◌, ◌^◌, ◌<◌, ◌++◌, ◌∷◌, [], true, false, IfOk, MatchOption, string_bytes};
ghost use Rattle.condition_lines.specs.declared.Line.TheVariants.{Begins, Assumes, Asks};
ghost use Rattle.condition_text.specs.Replies.{is_passed_over, unreadable_line, IsAnswerLine};
ghost use Rattle.condition_text.specs.Sessions.{IsRefused, IsStep, IsReply};

use crate::replying::tell;
use condition_lines::{Line, read_line};
use proof_checker::Condition;
use py_base::OutOfMemory;
use sqlite_items::Items;
use std::alloc::{AllocError, Global};
use terms::Literal;

/// A condition that has no goal yet.
#[derive(Debug, Drop)]
struct Pending {
    name: String,
    hyps: Items<Literal>,
}

/// What was read so far.
#[derive(Debug, Drop)]
pub struct Session {
    short: bool,
    lines: u64,
    pending: Option<Pending>,
}

// Whether a line is empty or a comment.
fn is_passed_over(line: &str) -> bool
    ensures { result ≡ is_passed_over line.now }
{
    begins_a_comment(line.as_bytes())
}

fn begins_a_comment(bytes: &[u8]) -> bool
    ensures { result ≡ is_passed_over bytes.now }
{
    match bytes {
        [] => true,
        [first, ..] => *first == b'#',
    }
}

fn unreadable_line(alloc: Global, number: u64) -> Result<String, AllocError>
    ensures { IfOk result (λ text. string_bytes text ≡ unreadable_line number) }
{
    format!(in alloc; "line {number}: cannot read\n")
}

// The line of the answer to a condition.
#[tactic(auto, using(crate::proofs::Told::line_is))]
fn answer_line(alloc: Global, short: bool, name: &str, c: &Condition) -> Result<String, OutOfMemory>
    ensures { IfOk result (λ line. IsAnswerLine short name.now c.now (string_bytes line)) }
{
    let told = tell(alloc, short, c)?;
    Ok(format!(in alloc; "{name} {told}\n")?)
}

// The same for a condition that gets its goal.
fn answer_to(
    alloc: Global,
    short: bool,
    pending: Pending,
    goal: Literal,
) -> Result<String, OutOfMemory>
    ensures { IfOk result (λ line. IsAnswerLine short (string_bytes pending.name) (record { hyps = pending.hyps; goal = goal }) (string_bytes line)) }
{
    let Pending { name, hyps } = pending;
    let condition = Condition { hyps, goal };
    let line = answer_line(alloc, short, name.as_str(), &condition);
    drop(condition);
    line
}

// Adds a hypothesis to a condition, where there is one.
fn assume_in(pending: &mut Option<Pending>, l: Literal) -> Result<bool, OutOfMemory>
    ensures { IfOk result (λ there. MatchOption pending.old ((there ≡ false) × (pending.new ≡ None)) (λ p. (there ≡ true) × (pending.new ≡ Some (record { name = p.name; hyps = p.hyps ++ l ∷ [] })))) }
{
    match pending {
        None => {
            drop(l);
            Ok(false)
        }
        Some(pending) => {
            pending.hyps.push(l)?;
            Ok(true)
        }
    }
}

impl Session {
    /// The session before any line.
    pub fn new(short: bool) -> Session {
        Session {
            short,
            lines: 0,
            pending: None,
        }
    }

    // What is answered to a line that can't be read here. It ends the condition that it stands in.
    fn refuse(&mut self, alloc: Global) -> Result<String, OutOfMemory>
        ensures step { IfOk result (λ reply. IsRefused self.old self.new.pending (string_bytes reply)) }
        ensures short { self.new.short ≡ self.old.short }
        ensures lines { self.new.lines ≡ self.old.lines }
    {
        self.pending = None;
        Ok(unreadable_line(alloc, self.lines)?)
    }

    fn begin(&mut self, alloc: Global, name: String) -> Result<String, OutOfMemory>
        ensures step { IfOk result (λ reply. IsStep self.old (Begins name) self.new.pending (string_bytes reply)) }
        ensures short { self.new.short ≡ self.old.short }
        ensures lines { self.new.lines ≡ self.old.lines }
    {
        if self.pending.is_some() {
            return self.refuse(alloc);
        }
        self.pending = Some(Pending {
            name,
            hyps: Items::new(alloc),
        });
        Ok(String::new(alloc))
    }

    fn assume(&mut self, alloc: Global, l: Literal) -> Result<String, OutOfMemory>
        ensures step { IfOk result (λ reply. IsStep self.old (Assumes l) self.new.pending (string_bytes reply)) }
        ensures short { self.new.short ≡ self.old.short }
        ensures lines { self.new.lines ≡ self.old.lines }
    {
        if assume_in(&mut self.pending, l)? {
            Ok(String::new(alloc))
        } else {
            self.refuse(alloc)
        }
    }

    fn ask(&mut self, alloc: Global, goal: Literal) -> Result<String, OutOfMemory>
        ensures step { IfOk result (λ reply. IsStep self.old (Asks goal) self.new.pending (string_bytes reply)) }
        ensures short { self.new.short ≡ self.old.short }
        ensures lines { self.new.lines ≡ self.old.lines }
    {
        match self.pending.take() {
            None => {
                drop(goal);
                self.refuse(alloc)
            }
            Some(pending) => answer_to(alloc, self.short, pending, goal),
        }
    }

    fn step(&mut self, alloc: Global, line: Line) -> Result<String, OutOfMemory>
        ensures step { IfOk result (λ reply. IsStep self.old line self.new.pending (string_bytes reply)) }
        ensures short { self.new.short ≡ self.old.short }
        ensures lines { self.new.lines ≡ self.old.lines }
    {
        match line {
            Line::Begins(name) => self.begin(alloc, name),
            Line::Assumes(l) => self.assume(alloc, l),
            Line::Asks(l) => self.ask(alloc, l),
            Line::Unreadable => self.refuse(alloc),
        }
    }

    /// What is answered to a line.
    #[tactic(auto, using(crate::proofs::Told::replied))]
    pub fn reply(&mut self, alloc: Global, line: &str) -> Result<String, OutOfMemory>
        ensures reply { IfOk result (λ reply. IsReply self.old line.now self.new (string_bytes reply)) }
        ensures lines { self.old.lines < 2 ^ 63 → self.new.lines ≡ self.old.lines + 1 }
    {
        self.lines = self.lines.saturating_add(1);
        if is_passed_over(line) {
            return Ok(String::new(alloc));
        }
        let line = read_line(alloc, line)?;
        self.step(alloc, line)
    }

    /// What is answered to the end of the input. A condition without a goal can't be read.
    pub fn end(&mut self, alloc: Global) -> Result<String, OutOfMemory>
        ensures { IfOk result (λ reply. MatchOption self.old.pending (string_bytes reply ≡ []) (λ _. string_bytes reply ≡ unreadable_line self.new.lines)) }
    {
        if self.pending.is_some() {
            self.lines = self.lines.saturating_add(1);
            self.refuse(alloc)
        } else {
            Ok(String::new(alloc))
        }
    }
}
