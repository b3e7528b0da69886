// The two numbers that a keyboard note is given: its key's frequency and its velocity divided by 128 (document 02, M-104).
#![tactic(auto)]

ghost use Rattle.std.specs.Prelude.{◌≡◌, T};
ghost use Rattle.std.specs.Float.{binary32};
ghost use Rattle.std.specs.Float.Ieee.{fits};
ghost use Rattle.midi_keys.specs.Keys.{frequency_of, normalized_velocity};

// For key n the largest whole number not above 450,560 * 2^((n - 69) / 12), in 1/1,024 Hz.
const TABLE: [u32; 128] = [
    8372, 8869, 9397, 9956, 10548, 11175, 11839, 12543, 13289, 14080, 14917, 15804, 16744, 17739,
    18794, 19912, 21096, 22350, 23679, 25087, 26579, 28160, 29834, 31608, 33488, 35479, 37589,
    39824, 42192, 44701, 47359, 50175, 53159, 56320, 59668, 63217, 66976, 70958, 75178, 79648,
    84384, 89402, 94718, 100350, 106318, 112640, 119337, 126434, 133952, 141917, 150356, 159297,
    168769, 178804, 189437, 200701, 212636, 225280, 238675, 252868, 267904, 283835, 300712, 318594,
    337538, 357609, 378874, 401403, 425272, 450560, 477351, 505736, 535809, 567670, 601425, 637188,
    675077, 715219, 757748, 802806, 850544, 901120, 954703, 1011473, 1071618, 1135340, 1202850,
    1274376, 1350154, 1430438, 1515497, 1605613, 1701088, 1802240, 1909406, 2022946, 2143236,
    2270680, 2405701, 2548752, 2700308, 2860877, 3030994, 3211226, 3402176, 3604480, 3818813,
    4045892, 4286473, 4541360, 4811403, 5097504, 5400617, 5721755, 6061988, 6422453, 6804352,
    7208960, 7637627, 8091784, 8572946, 9082720, 9622807, 10195009, 10801235, 11443510, 12123977,
    12844906,
];

// A key's frequency in Hz; a key above 127 has none, and gives 0.
pub fn frequency(key: u8) -> f32
    ensures is { result ≡ frequency_of key }
    ensures fits { T (fits binary32 result) }
{
    if key < 128 {
        let t = TABLE[key as usize];
        return (t as f32) / 1024.0;
    }
    0.0
}

// A velocity divided by 128.
pub fn normalized_velocity(velocity: u8) -> f32
    ensures is { result ≡ normalized_velocity velocity }
    ensures fits { T (fits binary32 result) }
{
    (velocity as f32) / 128.0
}
