// The names of the 25 types, and their numbers.
#![tactic(auto)]

ghost use Rattle.std.specs.Prelude.{IfSome, ◌≡◌, ◌≤◌, length};
ghost use Rattle.scene.specs.Types.{type_name, type_number};
ghost use Rattle.type_names.specs.Packed.{unpacked};

// How many types there are.
const TYPES: u32 = 25;

// The name of a type's number; none past the last type. A `match` on numbers is one look-up; a constant table would be laid out anew at each use.
pub fn type_name(t: u32) -> &'static [u8]
    ensures { result.now ≡ type_name t }
{
    match t {
        1 => b"source",
        2 => b"sphere",
        3 => b"bubble",
        4 => b"polygon",
        5 => b"cone",
        6 => b"cup",
        7 => b"cylinder",
        8 => b"tube",
        9 => b"ring",
        10 => b"light",
        11 => b"illum",
        12 => b"glow",
        13 => b"spotlight",
        14 => b"mirror",
        15 => b"plastic",
        16 => b"metal",
        17 => b"trans",
        18 => b"plastic2",
        19 => b"metal2",
        20 => b"trans2",
        21 => b"dielectric",
        22 => b"interface",
        23 => b"glass",
        24 => b"antimatter",
        25 => b"mixfunc",
        _ => b"",
    }
}

// The number of the type with a name, 0 for none: a search along the names.
#[tactic(auto, using(crate::proofs::NameLaws::searched_from))]
fn searched(word: &[u8]) -> u32
    ensures { result ≡ type_number word.now }
{
    for t in 1..=TYPES {
        if lexer::same(word, type_name(t)) {
            return t;
        }
    }
    0
}

// A word of at most seven bytes as a number: behind a 1, each byte is a digit to the base 256.
fn packed(word: &[u8]) -> u64
    requires { length word.now ≤ 7 }
    ensures { unpacked 7 result ≡ word.now }
{
    let mut k = 1;
    for b in word {
        k = k * 256 + u64::from(*b);
    }
    k
}

// The number of the type with a name of at most seven bytes, found at once.
// By packed numbers: a `match` on byte strings would tell the check the lengths of the names only.
fn short_number(word: &[u8]) -> Option<u32>
    ensures { IfSome result (λ t. t ≡ type_number word.now) }
{
    if 7 < word.len() {
        return None;
    }
    match packed(word) {
        0x1_73_6f_75_72_63_65 => Some(1), // source
        0x1_73_70_68_65_72_65 => Some(2), // sphere
        0x1_62_75_62_62_6c_65 => Some(3), // bubble
        0x1_70_6f_6c_79_67_6f_6e => Some(4), // polygon
        0x1_63_6f_6e_65 => Some(5), // cone
        0x1_63_75_70 => Some(6), // cup
        0x1_74_75_62_65 => Some(8), // tube
        0x1_72_69_6e_67 => Some(9), // ring
        0x1_6c_69_67_68_74 => Some(10), // light
        0x1_69_6c_6c_75_6d => Some(11), // illum
        0x1_67_6c_6f_77 => Some(12), // glow
        0x1_6d_69_72_72_6f_72 => Some(14), // mirror
        0x1_70_6c_61_73_74_69_63 => Some(15), // plastic
        0x1_6d_65_74_61_6c => Some(16), // metal
        0x1_74_72_61_6e_73 => Some(17), // trans
        0x1_6d_65_74_61_6c_32 => Some(19), // metal2
        0x1_74_72_61_6e_73_32 => Some(20), // trans2
        0x1_67_6c_61_73_73 => Some(23), // glass
        0x1_6d_69_78_66_75_6e_63 => Some(25), // mixfunc
        _ => None,
    }
}

// The number of the type with a name, 0 for none.
pub fn type_number(word: &[u8]) -> u32
    ensures { result ≡ type_number word.now }
{
    match short_number(word) {
        Some(t) => t,
        None => searched(word),
    }
}
