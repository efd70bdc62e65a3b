// The fields after the kind of a line.
ghost use Rattle.std.specs.Prelude.{◌≡◌, IfSome, IfNone};
ghost use Rattle.command_csv.specs.declared.kind.Kind.TheVariants.{Issue, Premium, Alter, Lapse, Reinstate, Claim, Settle, Mature, PaidUp, Value};
ghost use Rattle.command_csv.specs.inside.Forms.{form_of};
ghost use Rattle.command_csv.specs.inside.Cursor.{HoldsLine, StopsIn};

use crate::fields::LineFields;
use crate::kind::Kind;
use policy_types::{Command, Line};

impl LineFields<'_> {
    /// The line of a kind, from the fields after the kind's word.
    pub fn of_kind(&mut self, kind: Kind) -> Option<Line>
        requires head { self.old.asked ≡ 2 }
        ensures some { IfSome result (HoldsLine kind self.old self.new) }
        ensures none { IfNone result (StopsIn (form_of kind) self.old self.new) }
    {
        match kind {
            Kind::Issue => self.issue(),
            Kind::Premium => self.premium(),
            Kind::Alter => self.alter(),
            Kind::Lapse => self.lapse(),
            Kind::Reinstate => self.reinstate(),
            Kind::Claim => self.claim(),
            Kind::Settle => self.settle(),
            Kind::Mature => self.mature(),
            Kind::PaidUp => self.paid_up(),
            Kind::Upgrade => Some(Line::Post(Command::Upgrade)),
            Kind::Value => self.valuation(),
            Kind::Trim => Some(Line::Trim),
        }
    }

    fn issue(&mut self) -> Option<Line>
        requires head { self.old.asked ≡ 2 }
        ensures some { IfSome result (HoldsLine Issue self.old self.new) }
        ensures none { IfNone result (StopsIn (form_of Issue) self.old self.new) }
    {
        let id = self.id()?;
        let day = self.day()?;
        let plan = self.plan()?;
        let age = self.age()?;
        let years = self.years(plan, age)?;
        let amount = self.amount()?;
        let premium = self.amount()?;
        Some(Line::Post(Command::Issue {
            id,
            day,
            plan,
            age,
            years,
            amount,
            premium,
        }))
    }

    fn premium(&mut self) -> Option<Line>
        requires head { self.old.asked ≡ 2 }
        ensures some { IfSome result (HoldsLine Premium self.old self.new) }
        ensures none { IfNone result (StopsIn (form_of Premium) self.old self.new) }
    {
        let id = self.id()?;
        let day = self.day()?;
        let amount = self.amount()?;
        Some(Line::Post(Command::Premium { id, day, amount }))
    }

    fn alter(&mut self) -> Option<Line>
        requires head { self.old.asked ≡ 2 }
        ensures some { IfSome result (HoldsLine Alter self.old self.new) }
        ensures none { IfNone result (StopsIn (form_of Alter) self.old self.new) }
    {
        let id = self.id()?;
        let day = self.day()?;
        let amount = self.amount()?;
        let premium = self.amount()?;
        Some(Line::Post(Command::Alter {
            id,
            day,
            amount,
            premium,
        }))
    }

    fn lapse(&mut self) -> Option<Line>
        requires head { self.old.asked ≡ 2 }
        ensures some { IfSome result (HoldsLine Lapse self.old self.new) }
        ensures none { IfNone result (StopsIn (form_of Lapse) self.old self.new) }
    {
        let id = self.id()?;
        let day = self.day()?;
        Some(Line::Post(Command::Lapse { id, day }))
    }

    fn reinstate(&mut self) -> Option<Line>
        requires head { self.old.asked ≡ 2 }
        ensures some { IfSome result (HoldsLine Reinstate self.old self.new) }
        ensures none { IfNone result (StopsIn (form_of Reinstate) self.old self.new) }
    {
        let id = self.id()?;
        let day = self.day()?;
        let amount = self.reinstatement()?;
        Some(Line::Post(Command::Reinstate { id, day, amount }))
    }

    fn claim(&mut self) -> Option<Line>
        requires head { self.old.asked ≡ 2 }
        ensures some { IfSome result (HoldsLine Claim self.old self.new) }
        ensures none { IfNone result (StopsIn (form_of Claim) self.old self.new) }
    {
        let id = self.id()?;
        let day = self.day()?;
        Some(Line::Post(Command::Claim { id, day }))
    }

    fn settle(&mut self) -> Option<Line>
        requires head { self.old.asked ≡ 2 }
        ensures some { IfSome result (HoldsLine Settle self.old self.new) }
        ensures none { IfNone result (StopsIn (form_of Settle) self.old self.new) }
    {
        let id = self.id()?;
        let day = self.day()?;
        let amount = self.amount()?;
        Some(Line::Post(Command::Settle { id, day, amount }))
    }

    fn mature(&mut self) -> Option<Line>
        requires head { self.old.asked ≡ 2 }
        ensures some { IfSome result (HoldsLine Mature self.old self.new) }
        ensures none { IfNone result (StopsIn (form_of Mature) self.old self.new) }
    {
        let id = self.id()?;
        let day = self.day()?;
        Some(Line::Post(Command::Mature { id, day }))
    }

    fn paid_up(&mut self) -> Option<Line>
        requires head { self.old.asked ≡ 2 }
        ensures some { IfSome result (HoldsLine PaidUp self.old self.new) }
        ensures none { IfNone result (StopsIn (form_of PaidUp) self.old self.new) }
    {
        let id = self.id()?;
        let day = self.day()?;
        let amount = self.amount()?;
        Some(Line::Post(Command::PaidUp { id, day, amount }))
    }

    fn valuation(&mut self) -> Option<Line>
        requires head { self.old.asked ≡ 2 }
        ensures some { IfSome result (HoldsLine Value self.old self.new) }
        ensures none { IfNone result (StopsIn (form_of Value) self.old self.new) }
    {
        let on = self.day()?;
        let at = self.position()?;
        let workers = self.workers()?;
        Some(Line::Value { on, at, workers })
    }
}
