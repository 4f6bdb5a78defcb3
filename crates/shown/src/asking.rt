//! One call for every question.
ghost use Rattle.std.specs.Prelude.{IfOk, IfErr};
ghost use Rattle.shown.specs.Asked.{IsTold, RefusesQuestion};
ghost use Rattle.shown.specs.KeptAnswers.{AreRetainedAnswers};

use crate::answer::Refused;
use crate::question::{Question, Told};
use crate::shown::Shown;
use answer_cache::CachedAnswers;

impl Shown {
    /// What a question is told.
    pub fn answer(&self, question: &Question) -> Result<Told, Refused>
        ensures ok { IfOk result (IsTold self.now question.now) }
        ensures err { IfErr result (RefusesQuestion self.now question.now) }
    {
        match question {
            Question::Check(at, node, user) => Ok(Told::Checked(self.check(at, node, user)?)),
            Question::Expand(at, node, depth) => {
                Ok(Told::Expanded(self.expand(at, node, depth.nodes)?))
            }
            Question::Read(at, asked) => Ok(Told::Found(self.read(at, asked)?)),
            Question::Lookup(at, asked) => Ok(Told::Looked(self.lookup(at, asked)?)),
            Question::Groups(at, expr, limit) => Ok(Told::Grouped(self.groups(at, expr, *limit)?)),
            Question::Watch(cursor, namespaces, commits) => {
                match self.watch(cursor, namespaces, *commits) {
                    Ok(page) => Ok(Told::Watched(page)),
                    Err(why) => Err(Refused { why, at: None }),
                }
            }
            Question::State => Ok(Told::Numbers(self.state())),
        }
    }

    /// The same, asked by one who keeps answers of checks: at a retained revision they are what the check would answer, and a
    /// check asks them where it comes to a question of theirs.
    pub fn answer_knowing(&self, kept: &CachedAnswers, question: &Question) -> Result<Told, Refused>
        requires { AreRetainedAnswers self.now.kept kept.now }
        ensures ok { IfOk result (IsTold self.now question.now) }
        ensures err { IfErr result (RefusesQuestion self.now question.now) }
    {
        match question {
            Question::Check(at, node, user) => {
                Ok(Told::Checked(self.check_knowing(kept, at, node, user)?))
            }
            _ => self.answer(question),
        }
    }
}
