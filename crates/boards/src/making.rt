ghost use Rattle.std.specs.Prelude.{◌≡◌, ◌≤◌};
ghost use Rattle.boards.specs.Making.{doors_for};

/// How many doors a board gets that is wished for that many: no board has none, and none has more than 64.
pub fn doors_for(wished: usize) -> usize
    ensures value { result ≡ doors_for wished }
    ensures some { 1 ≤ result }
    ensures few { result ≤ 64 }
{
    if wished == 0 {
        1
    } else if wished > 64 {
        64
    } else {
        wished
    }
}
