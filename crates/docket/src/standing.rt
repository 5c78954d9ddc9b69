// The standing of a docket, and the granted calls that can change it.
ghost use Rattle.std.specs.Prelude.{◌≡◌};
ghost use Rattle.docket.specs.Standings.{next};

#[derive(Clone, Copy, PartialEq, Eq, Debug)]
pub enum Standing {
    // nothing is known of the live entries
    Open,
    // the live entries have no model
    Refuted,
    // the live entries have a model
    Shown,
}

#[derive(Clone, Copy)]
pub(crate) enum Granted {
    // an entry was added
    Entered,
    // an entry was struck; `used`: the last accepted tableau used it
    Struck { used: bool },
    // a tableau was accepted
    Closed,
    // a model was accepted
    Satisfied,
}

impl Standing {
    // Follows the table: standing and event together decide the next standing. In the two cells that never occur the
    // standing stays.
    pub(crate) fn follow(&mut self, event: Granted)
        ensures { self.new ≡ next self.old event }
    {
        match (self, event) {
            (Standing::Open, Granted::Entered) => {}
            (Standing::Refuted, Granted::Entered) => {}
            (now @ Standing::Shown, Granted::Entered) => *now = Standing::Open,
            (Standing::Open, Granted::Struck { used: true }) => {}
            (now @ Standing::Refuted, Granted::Struck { used: true }) => *now = Standing::Open,
            (Standing::Shown, Granted::Struck { used: true }) => {}
            (Standing::Open, Granted::Struck { used: false }) => {}
            (Standing::Refuted, Granted::Struck { used: false }) => {}
            (Standing::Shown, Granted::Struck { used: false }) => {}
            (now @ Standing::Open, Granted::Closed) => *now = Standing::Refuted,
            (Standing::Refuted, Granted::Closed) => {}
            (Standing::Shown, Granted::Closed) => {}
            (now @ Standing::Open, Granted::Satisfied) => *now = Standing::Shown,
            (Standing::Refuted, Granted::Satisfied) => {}
            (Standing::Shown, Granted::Satisfied) => {}
        }
    }
}
