// The graphs that the examples look at.
ghost use Rattle.std.specs.Prelude.{◌≡◌, ◌+◌, ◌*◌, ◌≤◌, length};

// The image of T: directory, nodes 10, 20, 30, edges (0,1,1) (1,2,1) (0,2,0).
const T: [u8; 40] = [
    16, 0, 6, 0, 22, 0, 18, 0, 40, 0, 0, 0, 40, 0, 0, 0, 10, 0, 20, 0, 30, 0, 0, 0, 1, 0, 1, 0, 1,
    0, 2, 0, 1, 0, 0, 0, 2, 0, 0, 0,
];

// T, by value.
pub fn t() -> [u8; 40]
    ensures { 40 ≡ length result }
{
    T
}

// No nodes.
pub fn nothing() -> [u8; 16]
    ensures { 16 ≡ length result }
{
    [16, 0, 0, 0, 16, 0, 0, 0, 16, 0, 0, 0, 16, 0, 0, 0]
}

// A number of 16 bits, low byte first.
fn put_number(image: &mut [u8; 418], at: usize, number: usize)
    requires { (at + 2 ≤ 418) × (number ≤ 65535) }
{
    image[at..at + 2].copy_from_slice(&(number as u16).to_le_bytes());
}

// Up to 201 nodes, with outer numbers from 0 on, and nothing else.
pub fn only_nodes(image: &mut [u8; 418], nodes: usize)
    requires { nodes ≤ 201 }
{
    let end = 16 + 2 * nodes;
    put_number(image, 0, 16);
    put_number(image, 2, 2 * nodes);
    put_number(image, 4, end);
    put_number(image, 8, end);
    put_number(image, 12, end);
    for i in 0..nodes {
        put_number(image, 16 + 2 * i, i);
    }
}
