//! Tables that tell of each byte what a test says of it.

/// A table of 256 truth values: of each byte what `$test` says, a macro that takes the byte as an expression.
#[macro_export]
macro_rules! byte_table {
    (@each $test:ident, $($n:literal)*) => {
        [$($test!($n), $test!($n + 1), $test!($n + 2), $test!($n + 3)),*]
    };
    ($test:ident) => {
        $crate::byte_table!(@each $test,
            0 4 8 12 16 20 24 28 32 36 40 44 48 52 56 60 64 68 72 76 80 84 88 92 96 100 104 108 112 116 120 124
            128 132 136 140 144 148 152 156 160 164 168 172 176 180 184 188 192 196 200 204 208 212 216 220 224
            228 232 236 240 244 248 252)
    };
}
