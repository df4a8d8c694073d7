// What was written is read again, and what is read was so written: contracts that are laws.
ghost use Rattle.plan_text.specs.Laws.{PlanTextsAreRead, PlansHaveOneText, ReadPlansAreSaid};

/// The text of a plan says that plan.
pub fn plan_texts_are_read()
    ensures { PlanTextsAreRead }
{}

/// What a text says is a plan between the roots, and the text is that of this plan.
pub fn read_plans_are_said()
    ensures said { ReadPlansAreSaid }
    ensures text { PlansHaveOneText }
{}
