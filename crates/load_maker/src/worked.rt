// Worked cases of the generator, each a theorem over the definitions alone.
ghost use Rattle.load_maker.specs.Worked.{FirstNumbers, FirstDraws, FirstPolicy, FirstRows, FirstLanes};

/// The seed 1: the first five numbers, what they give, the first policy and its rows, and the lanes of three policies.
#[tactic(auto, unfolding(crate::specs::Generator::policy_drawn))]
pub fn seed_of_1()
    ensures numbers { FirstNumbers }
    ensures draws { FirstDraws }
    ensures policy { FirstPolicy }
    ensures rows { FirstRows }
    ensures lanes { FirstLanes }
{}
