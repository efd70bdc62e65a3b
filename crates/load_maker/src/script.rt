// The script of the policies that are drawn.
ghost use Rattle.std.specs.Prelude.{◌≡◌, ◌<◌, ◌≤◌, ◌^◌, IfOk};
ghost use Rattle.load_maker.specs.GeneratedScript.{generated_text};

use crate::generator::Generator;
use crate::rows::write_rows;
use policy_types::NoMemory;
use std::alloc::Global;
use text_lines::LineWriter;

/// The script of `count` policies drawn from the seed, numbered from 1 and assigned to the lanes in turn: for each
/// policy the row that issues it and the row of its first premium.
#[tactic(auto, unfolding(crate::specs::Generator::state_after, crate::specs::GeneratedRows::generated_rows, crate::specs::GeneratedScript::generated_text))]
pub fn make_script(alloc: Global, seed: u32, count: u32, lanes: u8) -> Result<Vec<u8>, NoMemory>
    requires seed { seed < 2 ^ 31 }
    requires count { (1 ≤ count) × (count ≤ 100000) }
    requires lanes { (1 ≤ lanes) × (lanes ≤ 8) }
    ensures { IfOk result (λ text. text.items ≡ generated_text seed lanes count) }
{
    let mut generator = Generator::new(seed);
    let mut lines = LineWriter::new(alloc);
    for before in 0..count {
        let policy = generator.next_policy();
        let lane = 1 + (before % lanes as u32) as u8;
        write_rows(&mut lines, lane, before + 1, &policy)?;
    }
    Ok(lines.into_text().into_vec())
}
