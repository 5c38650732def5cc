// The query that the program asks: one part without a name.
ghost use Rattle.std.specs.Prelude.{◌≤◌, length};
ghost use Rattle.printing.specs.Run.{Asks};

// Four words before a pattern of 65 rows, one row more than any table has.
pub const MOST_WORDS: usize = 329;

// Writes the words of the query, and gives how many they are.
pub fn query_of(query: &mut [u16; MOST_WORDS], pattern: &[u16], restrictor: u16) -> usize
    requires { length pattern.now ≤ 325 }
    ensures { Asks query.new result restrictor pattern.now }
{
    let head = [1, restrictor, 0, pattern.len() as u16];
    words::copy_at(query, 0, &head);
    words::copy_at(query, 4, pattern);
    4 + pattern.len()
}
