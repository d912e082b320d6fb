ghost use Rattle.explain_model.specs.Laws.{FirstIsRefusal, NoLineWhereFounded, NoneWhereAccepted};

/// A record breaks no rule if and only if it is not refused.
pub fn none_where_accepted()
    ensures { NoneWhereAccepted }
{}

/// Where a record is refused, the rule of the refusal is the first of all that it breaks.
pub fn first_is_refusal()
    ensures { FirstIsRefusal }
{}

/// A genesis has no line of a problem if and only if it breaks no genesis rule.
pub fn no_line_where_founded()
    ensures { NoLineWhereFounded }
{
    genesis_problems::first_problem();
}
