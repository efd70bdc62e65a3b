// Worked runs of the program as it is shipped, each a theorem over the definitions alone.
ghost use Rattle.life_cli.specs.WorkedShipped.{ShippedByHand, ShippedLanes};

/// The arguments are obeyed from the start of the devices, and the ending that is due comes about.
pub fn shipped_by_hand()
    ensures { ShippedByHand }
{}

/// The same for two lanes, whose basis is fetched and whose disk fails.
pub fn shipped_lanes_by_hand()
    ensures { ShippedLanes }
{}
