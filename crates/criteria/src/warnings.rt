ghost use Rattle.criteria.specs.Warnings.{LimitFirstIsUnsteady, ExtensionLosesOrder};

// A theorem: its contract is the statement. Why no list of trips may rest on an order by the limit first, or on extended pairs keeping their order.
pub fn warnings_stand()
    ensures unsteady { LimitFirstIsUnsteady }
    ensures disordered { ExtensionLosesOrder }
{}
