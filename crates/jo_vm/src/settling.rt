// What is done with the reply to a call.
ghost use Rattle.std.specs.Prelude.{◌≡◌, ◌≤◌, length};
ghost use Rattle.jo_meaning.specs.State.{made_in, found_in, flag_in};
ghost use Rattle.jo_vm.specs.Replies.{Refuses};

use crate::frame::{Due, Frame};
use jo_model::{Outcome, Reply};
use jo_value::Value;

impl<'a> Frame<'a> {
    ghost use Rattle.jo_meaning.specs.State.{names_in};
    ghost use Rattle.jo_meaning.specs.Printed.{line_of_names};
    ghost use Rattle.jo_vm.specs.Replies.{reach_due};
    ghost use Rattle.jo_vm.specs.inner.State.{fixed, Settled, Printed};

    /// Does with a reply what is due. `Some` is how the script ends then.
    pub(crate) fn settle(&mut self, due: Due, reply: &Reply) -> Option<Outcome>
        requires { reach_due due ≤ length self.old.variables }
        ensures settled { Settled due reply.now self.old result self.new }
        ensures fixed { fixed self.new ≡ fixed self.old }
    {
        if let Some(outcome) = refusal(reply) {
            return Some(outcome);
        }
        match due {
            Due::Done => None,
            Due::Flag(to) => {
                self.leave(&to, flag_in(reply));
                None
            }
            Due::Found(to) => {
                self.leave(&to, found_in(reply));
                None
            }
            Due::Made => {
                self.stack.push(made_in(reply));
                None
            }
            Due::Kept(value) => {
                self.stack.push(value);
                None
            }
            Due::Names => self.print_names_in(reply),
        }
    }

    // Prints the names in a reply. `Some` is OutputFull.
    fn print_names_in(&mut self, reply: &Reply) -> Option<Outcome>
        ensures printed { Printed (line_of_names self.old.texts.now (names_in reply.now)) self.old result self.new }
        ensures fixed { fixed self.new ≡ fixed self.old }
    {
        let printed = match reply {
            Reply::Names(names) => self.lines.print_names(self.texts, names.as_slice()),
            _ => self.lines.print_names(self.texts, &[]),
        };
        if printed {
            None
        } else {
            Some(Outcome::OutputFull)
        }
    }
}

// How a reply that refuses the call ends the script.
fn refusal(reply: &Reply) -> Option<Outcome>
    ensures { Refuses reply.now result }
{
    match reply {
        Reply::TooManyNames => Some(Outcome::TooManyNames),
        Reply::ObjectsSpent => Some(Outcome::ObjectsSpent),
        Reply::Spent(_) => Some(Outcome::Spent),
        _ => None,
    }
}

fn made_in(reply: &Reply) -> Value
    ensures { result ≡ made_in reply.now }
{
    match reply {
        Reply::Made(object) => Value::Object(*object),
        _ => Value::Undefined,
    }
}

fn found_in(reply: &Reply) -> Value
    ensures { result ≡ found_in reply.now }
{
    match reply {
        Reply::Found(value) => *value,
        _ => Value::Undefined,
    }
}

fn flag_in(reply: &Reply) -> Value
    ensures { result ≡ flag_in reply.now }
{
    match reply {
        Reply::Flag(truth) => Value::Bool(*truth),
        _ => Value::Undefined,
    }
}
