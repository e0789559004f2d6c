// A session: lines are read one by one, and each module is answered at its end.
ghost use Rattle.std.specs.Prelude.{◌≡◌, ◌++◌, [], None, IfOk, OnOk, string_bytes};
ghost use Rattle.type_text.specs.Sessions.{IsAnswered, IsModule, HasLine, IsStep};
ghost use Rattle.type_text.specs.Replies.{IsAnswerLine, line_end};

use crate::texts::verdict_text;
use crate::verdict::verdict_of;
use py_base::OutOfMemory;
use std::alloc::Global;

/// A module that is being read: its name, and its lines so far.
#[derive(Debug, Drop)]
struct Module {
    name: String,
    text: String,
}

/// What was read so far.
#[derive(Debug, Drop)]
pub struct Session {
    module: Option<Module>,
}

// The line of the answer to a module.
#[tactic(auto, using(crate::proofs::Told::line_is))]
fn answer(alloc: Global, module: &Module) -> Result<String, OutOfMemory>
    ensures { IfOk result (λ line. IsAnswerLine (string_bytes module.now.name) (string_bytes module.now.text) (string_bytes line)) }
{
    let found = verdict_of(alloc, module.text.as_str().as_bytes())?;
    let told = verdict_text(alloc, found)?;
    let name = module.name.as_str();
    Ok(format!(in alloc; "{name}: {told}\n")?)
}

// A module without lines.
fn named(alloc: Global, name: &str) -> Result<Module, OutOfMemory>
    ensures { IfOk result (λ m. (string_bytes m.name ≡ name.now) × (string_bytes m.text ≡ [])) }
{
    let name = String::from_str(alloc, name)?;
    Ok(Module {
        name,
        text: String::new(alloc),
    })
}

impl Module {
    fn add(&mut self, line: &str) -> Result<(), OutOfMemory>
        ensures name { string_bytes self.new.name ≡ string_bytes self.old.name }
        ensures text { OnOk result (string_bytes self.new.text ≡ string_bytes self.old.text ++ (line.now ++ line_end)) }
    {
        self.text.push_str(line)?;
        self.text.push_str("\n")?;
        Ok(())
    }
}

impl Session {
    /// The session before any line.
    pub fn new() -> Session
        ensures { result.module ≡ None }
    {
        Session { module: None }
    }

    // Adds a line to the module, where there is one.
    fn add(&mut self, line: &str) -> Result<(), OutOfMemory>
        ensures { OnOk result (HasLine line.now self.old.module self.new.module) }
    {
        match &mut self.module {
            Some(module) => module.add(line),
            None => Ok(()),
        }
    }

    // Begins a module, and answers the one before.
    fn begin(&mut self, alloc: Global, name: &str) -> Result<String, OutOfMemory>
        ensures { IfOk result (λ reply. IsModule name.now [] self.new.module × IsAnswered self.old.module (string_bytes reply)) }
    {
        let reply = self.end(alloc)?;
        self.module = Some(named(alloc, name)?);
        Ok(reply)
    }

    /// What is answered to a line.
    #[tactic(auto, using(crate::proofs::Lines::went_on))]
    pub fn reply(&mut self, alloc: Global, line: &str) -> Result<String, OutOfMemory>
        ensures { IfOk result (λ reply. IsStep line.now self.old.module self.new.module (string_bytes reply)) }
    {
        match line.strip_prefix("## ") {
            Some(name) => self.begin(alloc, name),
            None => {
                self.add(line)?;
                Ok(String::new(alloc))
            }
        }
    }

    /// What is answered to the end of the input.
    pub fn end(&self, alloc: Global) -> Result<String, OutOfMemory>
        ensures { IfOk result (λ reply. IsAnswered self.now.module (string_bytes reply)) }
    {
        match &self.module {
            Some(module) => answer(alloc, module),
            None => Ok(String::new(alloc)),
        }
    }
}
