//! Laws over the definitions.
ghost use Rattle.ps_hall.specs.Halls.{PullsView};

/// What the hall keeps gives to whoever looks the part of its view past its cursor.
pub fn law_of_pulls()
    ensures { PullsView }
{}
