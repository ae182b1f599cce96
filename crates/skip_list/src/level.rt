// Levels from draws.
ghost use Rattle.std.specs.Prelude.{◌≡◌, ◌<◌, ◌≤◌};
ghost use Rattle.skip_list.specs.Level.{level_of};

// A draw below a limit goes one level up.
const LIMITS: [u32; 15] = [
    1073741824, 268435456, 67108864, 16777216, 4194304, 1048576, 262144, 65536, 16384, 4096, 1024,
    256, 64, 16, 4,
];

// The level of a key, from the draw of its insertion.
pub fn level_of(draw: u32) -> u8
    ensures level { result ≡ level_of draw }
    ensures low { 0 < result }
    ensures high { result ≤ 16 }
{
    let mut level = 1;
    for limit in LIMITS {
        if draw < limit {
            level += 1;
        }
    }
    level
}
