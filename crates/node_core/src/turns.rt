// What the writer thread does between two calls.
ghost use Rattle.std.specs.Prelude.{◌≡◌, is_some};
ghost use Rattle.node_core.specs.Nodes.{with_mail};
ghost use Rattle.node_core.specs.Turns.{IsHandedOn, IsListPut, IsListedIf, IsNext, IsReadied, IsReleased, asking_if, asks_others, stirred_if};

use crate::node_state::NodeState;
use node_agenda::Task;
use node_replication::Released;
use std::time::Duration;
use wire_callbacks::Duties;

/// What was readied before the writer thread takes its next task.
#[derive(Clone, Copy)]
pub struct Readied {
    /// Whether commands are accepted from now on.
    pub has_opened: bool,
    /// Whether participants may be called that couldn't be before.
    pub may_call: bool,
    /// Whether a list of duties waited and is put now, and whether a new one is asked for.
    pub is_put: bool,
    pub asks_again: bool,
}

/// Who is to be woken after a call, and whether the run goes on.
#[derive(Clone, Copy)]
pub struct Wakeups {
    /// The writer thread, because participants may be due or the number of facts is asked for.
    pub writer: bool,
    /// Those who wait for something new: other nodes, and the nodes of the same process.
    pub others: bool,
    /// Whether the run is to end now, so that no client runs into its end.
    pub is_spent: bool,
}

impl NodeState {
    /// Takes a list of duties. It is put for the caller threads once other nodes have what was seen.
    /// Returns whether it is put at once; otherwise the other nodes are to ask for that.
    pub fn put_duties(&mut self, duties: Duties, now: Duration) -> bool
        ensures { IsListPut duties now self.old self.new result }
    {
        match self.followers.keep_list(duties, now) {
            Some(duties) => {
                self.mail.put_duties(duties, now);
                true
            }
            None => {
                self.has_news = true;
                false
            }
        }
    }

    /// Puts a list that waits no longer, if there is one. Returns whether there is.
    fn put_released(&mut self, list: Option<Duties>, now: Duration) -> bool
        ensures put { IsListedIf list now self.old.mail self.new.mail }
        ensures rest { self.new ≡ with_mail self.new.mail self.old }
        ensures is { result ≡ is_some list }
    {
        match list {
            Some(duties) => {
                self.mail.put_duties(duties, now);
                true
            }
            None => false,
        }
    }

    fn stir_if(&mut self, asks_again: bool)
        ensures { self.new ≡ with_mail (stirred_if asks_again self.old.mail) self.old }
    {
        if asks_again {
            self.mail.stir(false);
        }
    }

    /// Puts the list that waits no longer, if there is one; or has a new one asked for. Returns
    /// whether a list was put, and whether a new one is asked for.
    fn release(&mut self, now: Duration) -> (bool, bool)
        ensures { IsReleased now self.old self.new result.0 result.1 }
    {
        match self.followers.take_list(now) {
            Some(Released { list, asks_again }) => {
                let is_put = self.put_released(list, now);
                self.stir_if(asks_again);
                (is_put, asks_again)
            }
            None => (false, false),
        }
    }

    /// Readies what is due by now: the list that has waited for copies is put, commands are accepted
    /// if all was heard that a start waits for, and participants are queued whose pause is over.
    pub fn ready(&mut self, now: Duration) -> Readied
        ensures { IsReadied now self.old self.new result }
    {
        let (is_put, asks_again) = self.release(now);
        let has_opened = self.mail.open_if_due(now);
        if has_opened {
            self.is_new = false;
        }
        let may_call = self.mail.resume_calls(now);
        Readied {
            has_opened,
            may_call,
            is_put,
            asks_again,
        }
    }

    /// Returns what the writer thread does now. While callbacks wait for copies, no new list of duties
    /// is asked for: it will be once they no longer wait.
    pub fn next_task(&mut self, now: Duration) -> Task
        ensures { IsNext now self.old self.new result }
    {
        let task = self.mail.next_task(now);
        if matches!(&task, Task::Ask) && self.followers.puts_off() {
            return Task::Rest;
        }
        task
    }

    /// Whether the other nodes are asked, given whether all of them wait for news here.
    fn asks_others(&self, do_all_listen: bool) -> bool
        ensures { result ≡ asks_others do_all_listen self.now }
    {
        self.has_news && (self.is_apart && (self.nodes == 1 || !do_all_listen))
    }

    fn ask_if(&mut self, asks: bool)
        ensures { self.new ≡ asking_if asks self.old }
    {
        if asks {
            self.mail.want_count();
        }
    }

    /// Hands on the effects of the calls so far: returns who is to be woken. If other nodes are in
    /// processes of their own and one of them doesn't wait for news here, they are asked instead, and
    /// learn from that how many facts there are. Also says whether the run is to end.
    pub fn hand_on(&mut self, now: Duration) -> Wakeups
        ensures { IsHandedOn now self.old self.new result }
    {
        let do_all_listen = self.followers.do_all_listen(now);
        let asks = self.asks_others(do_all_listen);
        let others = self.has_news;
        self.has_news = false;
        let writer = asks || self.mail.is_stirred();
        self.ask_if(asks);
        Wakeups {
            writer,
            others,
            is_spent: self.tally.is_spent(),
        }
    }
}
