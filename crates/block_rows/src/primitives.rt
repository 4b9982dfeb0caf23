// Worlds whose methods have primitives. The tables are as those of `harness`.

use crate::harness::agrees;
use std::test::Fail;

// Sums, differences and products.
const SUMS: &str = "\
a = ( 3 _IntAdd: 4 ).~b = ( -3 _IntAdd: 3 ).~c = ( 536870911 _IntAdd: 1 ).~d = ( -536870912 _IntAdd: -1 ).~;spawn a~run 999~spawn b~run 999~spawn c~run 999~spawn d~run 999~;activity 1~done 7 at 4~activity 2~done 0 at 8~activity 3~error overflowError at 10 line 12:17~activity 4~error overflowError at 12 line 13:18~;0
a = ( 536870911 _IntAdd: -536870912 ).~b = ( 3 _IntSub: 4 ).~c = ( -536870912 _IntSub: 1 ).~d = ( 0 _IntSub: -536870912 ).~;spawn a~run 999~spawn b~run 999~spawn c~run 999~spawn d~run 999~;activity 1~done -1 at 4~activity 2~done -1 at 8~activity 3~error overflowError at 10 line 12:18~activity 4~error overflowError at 12 line 13:9~;0
a = ( -1 _IntSub: -536870912 ).~b = ( 536870911 _IntSub: 536870911 ).~c = ( 7 _IntMul: 2 ).~d = ( -3 _IntMul: 4 ).~;spawn a~run 999~spawn b~run 999~spawn c~run 999~spawn d~run 999~;activity 1~done 536870911 at 4~activity 2~done 0 at 8~activity 3~done 14 at 12~activity 4~done -12 at 16~;0
a = ( -3 _IntMul: -4 ).~b = ( 0 _IntMul: -4 ).~c = ( 32768 _IntMul: 16384 ).~d = ( 32768 _IntMul: -16384 ).~;spawn a~run 999~spawn b~run 999~spawn c~run 999~spawn d~run 999~;activity 1~done 12 at 4~activity 2~done 0 at 8~activity 3~error overflowError at 10 line 12:13~activity 4~done -536870912 at 14~;0
a = ( -32768 _IntMul: 16384 ).~b = ( -32768 _IntMul: -16384 ).~c = ( 536870911 _IntMul: 536870911 ).~d = ( -536870912 _IntMul: -1 ).~;spawn a~run 999~spawn b~run 999~spawn c~run 999~spawn d~run 999~;activity 1~done -536870912 at 4~activity 2~error overflowError at 6 line 11:14~activity 3~error overflowError at 8 line 12:17~activity 4~error overflowError at 10 line 13:18~;0
a = ( -536870912 _IntMul: -536870912 ).~b = ( -536870912 _IntMul: 1 ).~c = ( 23170 _IntMul: 23170 ).~d = ( 23171 _IntMul: 23171 ).~;spawn a~run 999~spawn b~run 999~spawn c~run 999~spawn d~run 999~;activity 1~error overflowError at 2 line 10:18~activity 2~done -536870912 at 6~activity 3~done 536848900 at 10~activity 4~error overflowError at 12 line 13:13~;0
a = ( 65536 _IntMul: 65536 ).~b = ( 3 _IntAdd: 4 IfFail: [ | :e. :p | 0 ] ).~c = ( 3 _IntSub: 4 IfFail: [ | :e. :p | ^ 9 ] ).~;spawn a~run 999~spawn b~run 999~spawn c~run 999~;activity 1~error overflowError at 2 line 10:13~activity 2~done 7 at 7~activity 3~done -1 at 12~;0";

// Quotients and remainders, of all signs.
const QUOTIENTS: &str = "\
a = ( 7 _IntDiv: 2 ).~b = ( -7 _IntDiv: 2 ).~c = ( 7 _IntDiv: -2 ).~d = ( -7 _IntDiv: -2 ).~;spawn a~run 999~spawn b~run 999~spawn c~run 999~spawn d~run 999~;activity 1~done 3 at 4~activity 2~done -3 at 8~activity 3~done -3 at 12~activity 4~done 3 at 16~;0
a = ( 6 _IntDiv: 3 ).~b = ( -6 _IntDiv: 3 ).~c = ( 1 _IntDiv: 2 ).~d = ( -1 _IntDiv: 2 ).~;spawn a~run 999~spawn b~run 999~spawn c~run 999~spawn d~run 999~;activity 1~done 2 at 4~activity 2~done -2 at 8~activity 3~done 0 at 12~activity 4~done 0 at 16~;0
a = ( 0 _IntDiv: 5 ).~b = ( 0 _IntDiv: -5 ).~c = ( 7 _IntDiv: 0 ).~d = ( 0 _IntDiv: 0 ).~;spawn a~run 999~spawn b~run 999~spawn c~run 999~spawn d~run 999~;activity 1~done 0 at 4~activity 2~done 0 at 8~activity 3~error divisionByZeroError at 10 line 12:9~activity 4~error divisionByZeroError at 12 line 13:9~;0
a = ( -536870912 _IntDiv: -1 ).~b = ( -536870912 _IntDiv: 1 ).~c = ( -536870912 _IntDiv: -536870912 ).~d = ( 536870911 _IntDiv: -1 ).~;spawn a~run 999~spawn b~run 999~spawn c~run 999~spawn d~run 999~;activity 1~error overflowError at 2 line 10:18~activity 2~done -536870912 at 6~activity 3~done 1 at 10~activity 4~done -536870911 at 14~;0
a = ( 1 _IntDiv: -536870912 ).~b = ( 536870911 _IntDiv: -536870912 ).~c = ( 7 _IntMod: 2 ).~d = ( -7 _IntMod: 2 ).~;spawn a~run 999~spawn b~run 999~spawn c~run 999~spawn d~run 999~;activity 1~done 0 at 4~activity 2~done 0 at 8~activity 3~done 1 at 12~activity 4~done -1 at 16~;0
a = ( 7 _IntMod: -2 ).~b = ( -7 _IntMod: -2 ).~c = ( 6 _IntMod: 3 ).~d = ( -6 _IntMod: 3 ).~;spawn a~run 999~spawn b~run 999~spawn c~run 999~spawn d~run 999~;activity 1~done 1 at 4~activity 2~done -1 at 8~activity 3~done 0 at 12~activity 4~done 0 at 16~;0
a = ( 1 _IntMod: 2 ).~b = ( 0 _IntMod: -5 ).~c = ( 7 _IntMod: 0 ).~d = ( -7 _IntMod: 0 ).~;spawn a~run 999~spawn b~run 999~spawn c~run 999~spawn d~run 999~;activity 1~done 1 at 4~activity 2~done 0 at 8~activity 3~error divisionByZeroError at 10 line 12:9~activity 4~error divisionByZeroError at 12 line 13:10~;0
a = ( -536870912 _IntMod: -1 ).~b = ( -536870912 _IntMod: 536870911 ).~c = ( 536870911 _IntMod: -536870912 ).~d = ( 1 _IntMod: -536870912 ).~;spawn a~run 999~spawn b~run 999~spawn c~run 999~spawn d~run 999~;activity 1~done 0 at 4~activity 2~done -1 at 8~activity 3~done 536870911 at 12~activity 4~done 1 at 16~;0";

// Bits of integers, and comparisons.
const BITS: &str = "\
a = ( 12 _IntAnd: 10 ).~b = ( -1 _IntAnd: 10 ).~c = ( -536870912 _IntAnd: 536870911 ).~d = ( -4 _IntAnd: -6 ).~;spawn a~run 999~spawn b~run 999~spawn c~run 999~spawn d~run 999~;activity 1~done 8 at 4~activity 2~done 10 at 8~activity 3~done 0 at 12~activity 4~done -8 at 16~;0
a = ( 12 _IntOr: 10 ).~b = ( -536870912 _IntOr: 536870911 ).~c = ( -4 _IntOr: 1 ).~d = ( 0 _IntOr: 0 ).~;spawn a~run 999~spawn b~run 999~spawn c~run 999~spawn d~run 999~;activity 1~done 14 at 4~activity 2~done -1 at 8~activity 3~done -3 at 12~activity 4~done 0 at 16~;0
a = ( 12 _IntXor: 10 ).~b = ( -1 _IntXor: 536870911 ).~c = ( -1 _IntXor: 5 ).~d = ( -536870912 _IntXor: -536870912 ).~;spawn a~run 999~spawn b~run 999~spawn c~run 999~spawn d~run 999~;activity 1~done 6 at 4~activity 2~done -536870912 at 8~activity 3~done -6 at 12~activity 4~done 0 at 16~;0
a = ( 3 _IntLT: 4 ).~b = ( 4 _IntLT: 4 ).~c = ( -536870912 _IntLT: 536870911 ).~d = ( 536870911 _IntLT: -536870912 ).~;spawn a~run 999~spawn b~run 999~spawn c~run 999~spawn d~run 999~;activity 1~done true at 4~activity 2~done false at 8~activity 3~done true at 12~activity 4~done false at 16~;0
a = ( 3 _IntLE: 4 ).~b = ( 4 _IntLE: 4 ).~c = ( 5 _IntLE: 4 ).~d = ( -1 _IntLE: 0 ).~;spawn a~run 999~spawn b~run 999~spawn c~run 999~spawn d~run 999~;activity 1~done true at 4~activity 2~done true at 8~activity 3~done false at 12~activity 4~done true at 16~;0
a = ( 4 _IntEQ: 4 ).~b = ( 4 _IntEQ: -4 ).~c = ( -536870912 _IntEQ: 536870911 ).~d = ( (3 < 4) _Eq: true ).~;spawn a~run 999~spawn b~run 999~spawn c~run 999~spawn d~run 999~;activity 1~done true at 4~activity 2~done false at 8~activity 3~done false at 12~activity 4~done true at 21~;0";

// Whether two are one, and clones.
const OBJECTS: &str = "\
o = ( | x <- 1. y <- 2 | ).~main = ( | c | c: o _Clone. c x: 5. o x: 7. (c x) - ((o x) - (c y)) ).~;spawn main~run 10000000~;activity 1~done 0 at 27~;0
o = ( | parent* = lobby. x <- 1. copy = ( _Clone ) | ).~main = ( | c | c: o copy. c x: 5. c copy x ).~;spawn main~run 10000000~;activity 1~done 5 at 16~;0
o = ( | parent* = lobby. x <- 1. copy = ( _Clone ) | ).~main = ( (o copy copy _Eq: o) ifTrue: [ 1 ] False: [ 2 ] ).~;spawn main~run 10000000~;activity 1~done 2 at 18~;0
x <- 1.~main = ( | c | c: _Clone. c x: 5. x ).~;spawn main~run 10000000~;activity 1~done 1 at 9~;0
x <- 1.~get = ( x ).~main = ( | c | c: _Clone. c x: 5. c get ).~;spawn main~run 10000000~;activity 1~done 5 at 12~;0
a = ( | x <- 1 | ).~b = ( | p* = a | ).~main = ( | c | c: b _Clone. c x: 4. b x ).~;spawn main~run 10000000~;activity 1~done 4 at 11~;0
o = ( | k = 3. m = ( k + n ). n <- 4. parent* = lobby | ).~main = ( | c | c: o _Clone. c n: 10. c m ).~;spawn main~run 10000000~;activity 1~done 13 at 18~;0
o = ( | b | ).~main = ( o b: [ 5 ]. o _Clone b value ).~;spawn main~run 10000000~;activity 1~done 5 at 11~;0
a = ( 3 _Eq: 3 ).~b = ( 3 _Eq: 4 ).~c = ( nil _Eq: nil ).~d = ( nil _Eq: true ).~;spawn a~run 999~spawn b~run 999~spawn c~run 999~spawn d~run 999~;activity 1~done true at 4~activity 2~done false at 8~activity 3~done true at 12~activity 4~done false at 16~;0
a = ( 3 _Eq: nil ).~b = ( nil _Eq: 0 ).~c = ( _Eq: self ).~d = ( 'a' _Eq: 'a' ).~;spawn a~run 999~spawn b~run 999~spawn c~run 999~spawn d~run 999~;activity 1~done false at 4~activity 2~done false at 8~activity 3~done true at 11~activity 4~done false at 15~;0
a = ( '' _Eq: 0 ).~b = ( [ 3 ] _Eq: 3 ).~c = ( 3 _Eq: [ 3 ] ).~d = ( nil _Eq: [ 3 ] ).~;spawn a~run 999~spawn b~run 999~spawn c~run 999~spawn d~run 999~;activity 1~done false at 4~activity 2~error badTypeError at 6 line 11:13~activity 3~error badTypeError at 8 line 12:9~activity 4~error badTypeError at 10 line 13:11~;0
a = ( | b | b: [ 3 ]. b _Eq: b ).~b = ( | s | s: 'ab'. s _Eq: s ).~c = ( | s | s: 'ab'. s _Eq: s _Clone ).~d = ( 3 _Clone ).~;spawn a~run 999~spawn b~run 999~spawn c~run 999~spawn d~run 999~;activity 1~error badTypeError at 5 line 10:25~activity 2~done true at 12~activity 3~done true at 20~activity 4~done 3 at 23~;0
a = ( 'ab' _Clone ).~b = ( nil _Clone ).~c = ( nil _Clone _Eq: nil ).~d = ( _Clone _Eq: self ).~;spawn a~run 999~spawn b~run 999~spawn c~run 999~spawn d~run 999~;activity 1~done #8 at 3~activity 2~done #35 at 6~activity 3~done false at 11~activity 4~done false at 15~;0
a = ( [ 3 ] _Clone ).~b = ( _Clone. _Clone. _Clone ).~c = ( true _Clone ifTrue: [ 1 ] False: [ 2 ] ).~d = ( | v | v: 2 _VectorNew. v _Clone ).~;spawn a~run 999~spawn b~run 999~spawn c~run 999~spawn d~run 999~;activity 1~error badTypeError at 1 line 10:13~activity 2~done #36 at 7~activity 3~done 1 at 18~activity 4~done #39 at 25~;0
a = ( | v. w | v: 2 _VectorNew. v _At: 0 Put: 7. w: v _Clone. v _At: 0 Put: 8. w _At: 0 ).~b = ( | v | v: 0 _VectorNew. v _Clone _Size ).~c = ( | v | v: 2 _VectorNew. v _Eq: v _Clone ).~;spawn a~run 999~spawn b~run 999~spawn c~run 999~;activity 1~done 7 at 22~activity 2~done 0 at 30~activity 3~done false at 39~;0";

// Vectors: their sizes, elements and places.
const VECTORS: &str = "\
x = 9.~main = ( 2 _VectorNew x ).~;spawn main~run 10000000~;activity 1~done 9 at 4~;0
at: i = ( _At: i ).~at: i Put: e = ( _At: i Put: e ).~main = ( | v | v: 4 _VectorNew. v at: 3 Put: 7. v at: 0 Put: 2. (v at: 3) - (v at: 0) ).~;spawn main~run 10000000~;activity 1~done 5 at 39~;0
sum: v = ( | i <- 0. s <- 0 | [ i < v _Size ] whileTrue: [ s: s + (v _At: i). i: i + 1 ]. s ).~main = ( | v | v: 3 _VectorNew. v _At: 0 Put: 5. v _At: 1 Put: 6. v _At: 2 Put: 7. sum: v ).~;spawn main~run 10000000~;activity 1~done 18 at 158~;0
v <- nil.~f = ( v: 3 _VectorNew. v _At: 0 Put: [ 5 ] ).~main = ( f. (v _At: 0) value ).~;spawn main~run 10000000~;activity 1~error nonLifoBlock at 14 line 12:24~;0
a = ( 0 _VectorNew ).~b = ( 3 _VectorNew _Size ).~c = ( 0 _VectorNew _Size ).~d = ( 3 _VectorNew _At: 2 ).~;spawn a~run 999~spawn b~run 999~spawn c~run 999~spawn d~run 999~;activity 1~done #34 at 3~activity 2~done 3 at 7~activity 3~done 0 at 11~activity 4~done nil at 16~;0
a = ( 65536 _VectorNew _Size ).~b = ( 65536 _VectorNew _At: 65535 ).~c = ( 65536 _VectorNew _At: 65536 ).~d = ( 65537 _VectorNew ).~;spawn a~run 999~spawn b~run 999~spawn c~run 999~spawn d~run 999~;activity 1~done 65536 at 4~activity 2~done nil at 9~activity 3~error badIndexError at 12 line 12:24~activity 4~error badSizeError at 13 line 13:13~;0
a = ( -1 _VectorNew ).~b = ( 536870911 _VectorNew ).~c = ( -536870912 _VectorNew ).~d = ( nil _VectorNew ).~;spawn a~run 999~spawn b~run 999~spawn c~run 999~spawn d~run 999~;activity 1~error badSizeError at 1 line 10:10~activity 2~error badSizeError at 2 line 11:17~activity 3~error badSizeError at 3 line 12:18~activity 4~error badTypeError at 4 line 13:11~;0
a = ( 'a' _VectorNew ).~b = ( [ 3 ] _VectorNew ).~c = ( _VectorNew ).~d = ( 3 _VectorNew _At: -1 ).~;spawn a~run 999~spawn b~run 999~spawn c~run 999~spawn d~run 999~;activity 1~error badTypeError at 1 line 10:11~activity 2~error badTypeError at 2 line 11:13~activity 3~error badTypeError at 2 line 12:7~activity 4~error badIndexError at 5 line 13:20~;0
a = ( 3 _VectorNew _At: 3 ).~b = ( 0 _VectorNew _At: 0 ).~c = ( 3 _VectorNew _At: 536870911 ).~d = ( 3 _VectorNew _At: nil ).~;spawn a~run 999~spawn b~run 999~spawn c~run 999~spawn d~run 999~;activity 1~error badIndexError at 3 line 10:20~activity 2~error badIndexError at 6 line 11:20~activity 3~error badIndexError at 9 line 12:20~activity 4~error badTypeError at 12 line 13:20~;0
a = ( 3 _VectorNew _At: [ 0 ] ).~b = ( 3 _VectorNew _At: 0 Put: 5 ).~c = ( 3 _VectorNew _At: -1 Put: 5 ).~d = ( 3 _VectorNew _At: 3 Put: 5 ).~;spawn a~run 999~spawn b~run 999~spawn c~run 999~spawn d~run 999~;activity 1~error badTypeError at 3 line 10:20~activity 2~done #35 at 9~activity 3~error badIndexError at 13 line 12:20~activity 4~error badIndexError at 17 line 13:20~;0
a = ( 3 _VectorNew _At: nil Put: 5 ).~b = ( nil _At: 0 Put: 5 ).~c = ( 'abc' _At: 0 Put: 5 ).~d = ( 3 _At: 0 Put: 5 ).~;spawn a~run 999~spawn b~run 999~spawn c~run 999~spawn d~run 999~;activity 1~error badTypeError at 4 line 10:20~activity 2~error badTypeError at 7 line 11:11~activity 3~error badTypeError at 10 line 12:13~activity 4~error badTypeError at 13 line 13:9~;0
a = ( [ 3 ] _At: 0 Put: 5 ).~b = ( | v | v: 3 _VectorNew. v _At: 1 Put: 5. v _At: 1 ).~c = ( | v | v: 3 _VectorNew. v _At: 1 Put: v. (v _At: 1) _Eq: v ).~d = ( | v | v: 3 _VectorNew. (v _At: 2 Put: [ 6 ]) _At: 2 ).~;spawn a~run 999~spawn b~\
run 999~spawn c~run 999~spawn d~run 999~;activity 1~error badTypeError at 3 line 10:13~activity 2~done 5 at 16~activity 3~done true at 31~activity 4~done [16@-] at 42~;0
a = ( | v | v: 3 _VectorNew. v _At: 2 Put: [ 6 ]. (v _At: 2) value ).~b = ( | v | v: 65536 _VectorNew. v _At: 65535 Put: 8. v _At: 65536 Put: 9 ).~c = ( | v | v: 65536 _VectorNew. v _At: 65535 Put: 8. (v _At: 65535) + 1 ).~\
d = ( | v | v: 2 _VectorNew. v _At: 0 Put: 3. v _At: 1 Put: 4. v _At: 0 Put: (v _At: 1). v _At: 0 ).~;spawn a~run 999~spawn b~run 999~spawn c~run 999~spawn d~run 999~;activity 1~done 6 at 16~activity 2~error badIndexError at 28 line 11:57~\
activity 3~done 9 at 46~activity 4~done 4 at 71~;0
a = ( nil _At: 0 ).~b = ( 3 _At: 0 ).~c = ( [ 3 ] _At: 0 ).~d = ( 3 _Size ).~;spawn a~run 999~spawn b~run 999~spawn c~run 999~spawn d~run 999~;activity 1~error badTypeError at 2 line 10:11~activity 2~error badTypeError at 4 line 11:9~activity 3~error badTypeError at 6 line 12:13~activity 4~error badTypeError at 7 line 13:9~;0
a = ( nil _Size ).~b = ( [ 3 ] _Size ).~c = ( nil _At: nil ).~d = ( 2 _VectorNew zork ).~;spawn a~run 999~spawn b~run 999~spawn c~run 999~spawn d~run 999~;activity 1~error badTypeError at 1 line 10:11~activity 2~error badTypeError at 2 line 11:13~activity 3~error badTypeError at 4 line 12:11~activity 4~error notUnderstood at 6 line 13:20~;0";

// Strings: their sizes and bytes, and what they print.
const STRINGS: &str = "\
a = ( 'abc' _Size ).~b = ( '' _Size ).~c = ( 'a\\n\\0b' _Size ).~d = ( 'abc' _At: 0 ).~;spawn a~run 999~spawn b~run 999~spawn c~run 999~spawn d~run 999~;activity 1~done 3 at 3~activity 2~done 0 at 6~activity 3~done 4 at 9~activity 4~done 97 at 13~;0
a = ( 'abc' _At: 2 ).~b = ( 'abc' _At: 3 ).~c = ( 'abc' _At: -1 ).~d = ( '' _At: 0 ).~;spawn a~run 999~spawn b~run 999~spawn c~run 999~spawn d~run 999~;activity 1~done 99 at 4~activity 2~error badIndexError at 6 line 11:13~activity 3~error badIndexError at 8 line 12:13~activity 4~error badIndexError at 10 line 13:10~;0
a = ( 'abc' _At: 'a' ).~b = ( 'a\\0' _At: 1 ).~c = ( 'a\\n' _At: 1 ).~d = ( '\\\\' _At: 0 ).~;spawn a~run 999~spawn b~run 999~spawn c~run 999~spawn d~run 999~;activity 1~error badTypeError at 2 line 10:13~activity 2~done 0 at 6~activity 3~done 10 at 10~activity 4~done 92 at 14~;0
a = ( 'abcdefghi' _At: 8 ).~b = ( 'a\x01\x1f\x7fb' print ).~c = ( '' print ).~d = ( 'ab c' print ).~;spawn a~run 999~spawn b~run 999~spawn c~run 999~spawn d~run 999~;activity 1~done 105 at 4~activity 2~out a\\x01\\x1f\\x7fb~done #9 at 9~activity 3~out ~done #10 at 14~activity 4~out ab c~done #11 at 19~;0
a = ( 'a\\n\\t\\r\\0\\\\\\'\\\"b' print ).~b = ( ' !#$%&()*+,-./:<=>?@[]^_`{|}' _StringPrint ).~c = ( 'a\tb' print ).~d = ( 'a~b' print ).~;spawn a~run 999~spawn b~run 999~spawn c~run 999~spawn d~run 999~;activity 1~out a\\n\\t\\r\\x00\\\\'\"b~done #8 at 5~activity 2~out  !#$%&()*+,-./:<=>?@[]^_`{|}~done #9 at 8~activity 3~out a\\tb~done #10 at 13~activity 4~out a\\nb~done #11 at 18~;0
a = ( 3 _StringPrint ).~b = ( nil _StringPrint ).~c = ( [ 3 ] _StringPrint ).~d = ( _StringPrint ).~;spawn a~run 999~spawn b~run 999~spawn c~run 999~spawn d~run 999~;activity 1~error badTypeError at 1 line 10:9~activity 2~error badTypeError at 2 line 11:11~activity 3~error badTypeError at 3 line 12:13~activity 4~error badTypeError at 3 line 13:7~;0
a = ( (2 _VectorNew) _StringPrint ).~b = ( 'ab' _StringPrint _Size ).~c = ( 'ab' print _Eq: 'ab' ).~d = ( 3 _IntPrint ).~;spawn a~run 999~spawn b~run 999~spawn c~run 999~spawn d~run 999~;activity 1~error badTypeError at 2 line 10:22~activity 2~out ab~done 2 at 6~activity 3~out ab~done false at 13~activity 4~out 3~done 3 at 16~;0
a = ( 0 _IntPrint ).~b = ( -7 _IntPrint ).~c = ( 536870911 _IntPrint ).~d = ( -536870912 _IntPrint ).~;spawn a~run 999~spawn b~run 999~spawn c~run 999~spawn d~run 999~;activity 1~out 0~done 0 at 3~activity 2~out -7~done -7 at 6~activity 3~out 536870911~done 536870911 at 9~activity 4~out -536870912~done -536870912 at 12~;0
a = ( 3 _IntPrint _IntPrint + 1 ).~b = ( '3' _IntPrint ).~c = ( nil _IntPrint ).~d = ( [ 3 ] _IntPrint ).~;spawn a~run 999~spawn b~run 999~spawn c~run 999~spawn d~run 999~;activity 1~out 3~out 3~done 4 at 9~activity 2~error badTypeError at 10 line 11:11~activity 3~error badTypeError at 11 line 12:11~activity 4~error badTypeError at 12 line 13:13~;0
main = ( _IntPrint ).~;spawn main~run 10000000~;activity 1~error badTypeError at 0 line 10:10~;0";

// Types are tested first, the receiver's before the arguments'; other names and numbers of arguments.
const TYPES: &str = "\
a = ( nil _IntAdd: 3 ).~b = ( 3 _IntSub: nil ).~c = ( 'a' _IntMul: 3 ).~d = ( 3 _IntMul: 'a' ).~;spawn a~run 999~spawn b~run 999~spawn c~run 999~spawn d~run 999~;activity 1~error badTypeError at 2 line 10:11~activity 2~error badTypeError at 4 line 11:9~activity 3~error badTypeError at 6 line 12:11~activity 4~error badTypeError at 8 line 13:9~;0
a = ( [ 3 ] _IntDiv: 0 ).~b = ( 7 _IntDiv: nil ).~c = ( nil _IntMod: 0 ).~d = ( 7 _IntMod: [ 3 ] ).~;spawn a~run 999~spawn b~run 999~spawn c~run 999~spawn d~run 999~;activity 1~error badTypeError at 2 line 10:13~activity 2~error badTypeError at 4 line 11:9~activity 3~error badTypeError at 6 line 12:11~activity 4~error badTypeError at 8 line 13:9~;0
a = ( true _IntAnd: 1 ).~b = ( 1 _IntOr: true ).~c = ( 1 _IntXor: (2 _VectorNew) ).~d = ( 3 _IntLT: nil ).~;spawn a~run 999~spawn b~run 999~spawn c~run 999~spawn d~run 999~;activity 1~error badTypeError at 2 line 10:12~activity 2~error badTypeError at 4 line 11:9~activity 3~error badTypeError at 7 line 12:9~activity 4~error badTypeError at 9 line 13:9~;0
a = ( nil _IntLT: 3 ).~b = ( 3 _IntLE: 'a' ).~c = ( 'a' _IntEQ: 'a' ).~d = ( 3 _IntEQ: nil ).~;spawn a~run 999~spawn b~run 999~spawn c~run 999~spawn d~run 999~;activity 1~error badTypeError at 2 line 10:11~activity 2~error badTypeError at 4 line 11:9~activity 3~error badTypeError at 6 line 12:11~activity 4~error badTypeError at 8 line 13:9~;0
a = ( nil _At: nil Put: nil ).~b = ( 3 _Zork ).~c = ( _Zork ).~d = ( 3 _Zork: 4 ).~;spawn a~run 999~spawn b~run 999~spawn c~run 999~spawn d~run 999~;activity 1~error badTypeError at 3 line 10:11~activity 2~error primitiveNotDefined at 4 line 11:9~activity 3~error primitiveNotDefined at 4 line 12:7~activity 4~error primitiveNotDefined at 6 line 13:9~;0
a = ( 3 _IntAdd ).~b = ( 3 _IntAdd: 4 With: 5 ).~c = ( 3 _Clone: 4 ).~d = ( 3 _Size: 4 ).~;spawn a~run 999~spawn b~run 999~spawn c~run 999~spawn d~run 999~;activity 1~error primitiveNotDefined at 1 line 10:9~activity 2~error primitiveNotDefined at 4 line 11:9~activity 3~error primitiveNotDefined at 6 line 12:9~activity 4~error primitiveNotDefined at 8 line 13:9~;0
a = ( 3 _IntPrint: 4 ).~b = ( 3 _At: 1 Put: 2 Put: 3 ).~c = ( 3 _At: 1 At: 2 ).~d = ( _IfFail: 3 ).~;spawn a~run 999~spawn b~run 999~spawn c~run 999~spawn d~run 999~;activity 1~error primitiveNotDefined at 2 line 10:9~activity 2~error primitiveNotDefined at 6 line 11:9~activity 3~error primitiveNotDefined at 9 line 12:9~activity 4~error primitiveNotDefined at 10 line 13:7~;0
a = ( 3 _intAdd: 4 ).~b = ( [ 3 _Zork: 4 ] value ).~c = ( 1. 2 + (3 _VectorNew: 4) ).~;spawn a~run 999~spawn b~run 999~spawn c~run 999~;activity 1~error primitiveNotDefined at 2 line 10:9~activity 2~error primitiveNotDefined at 6 line 11:11~activity 3~error primitiveNotDefined at 11 line 12:17~;0";

// Printed lines in their order, with stops between them.
const OUTS: &str = "\
main = ( 1 _IntPrint. 'b' print. 3 _IntPrint ).~;spawn main~run 2~run 3~run 1~run 1~run 9~;activity 1~out 1~stop at 2 line 10:21~stop at 5 line 6:47~out b~stop at 6 line 6:60~stop at 7 line 10:32~out 3~done 3 at 11~;0
main = ( | i <- 0 | [ i < 4 ] whileTrue: [ i _IntPrint. i: i + 1 ] ).~;spawn main~run 30~run 30~step~run 30~run 999~;activity 1~out 0~stop at 30 line 2:60~out 1~stop at 60 line 2:60~stop at 61 line 9:60~out 2~stop at 91 line 9:60~out 3~done nil at 139~;0
f = ( [ 'in' print. ^ 'out' ] value. 'no' print ).~main = ( f print ).~;spawn main~run 10000000~;activity 1~out in~out out~done #9 at 14~;0
m = ( 1 _IntPrint. 2 _IntPrint. 3 ).~n = ( 'x' print. 'y' print. 4 ).~;spawn m~run 2~spawn n~run 4~switch 1~run 3~switch 2~run 99~switch 1~run 99~;activity 1~out 1~stop at 2 line 10:18~activity 2~out x~stop at 6 line 11:16~activity 1~out 2~stop at 9 line 10:31~activity 2~out y~done 4 at 17~activity 1~done 3 at 20~;0
show = ( x _IntPrint. y _IntPrint ).~p = ( | parent* = lobby. x <- 3. y <- 4 | ).~main = ( | q | q: p _Clone. q x: 6. q show. p show ).~;spawn main~run 9~run 9~run 99~;activity 1~stop at 9 line 12:39~out 6~out 4~stop at 18 line 12:47~out 3~out 4~done 4 at 26~;0
traits = ( | parent* = lobby.~point = ( | parent* = lobby. + p = ( | r | r: clone. r x: x + p x. r y: y + p y. r ).~clone = ( _Clone ). show = ( x _IntPrint. y _IntPrint ) | ) | ).~point = ( | parent* = traits point. x <- 0. y <- 0 | ).~\
main = ( | p. q | p: point clone. p x: 3. p y: 4. q: p + p. q show ).~;spawn main~run 30~spawn main~run 5~switch 1~run 1000~;activity 1~stop at 30 line 11:56~activity 2~stop at 35 line 14:33~activity 1~out 6~out 8~done 8 at 60~;0
a = ( 1 _IntPrint. 'b' print. 3 _IntPrint ).~b = ( 1 _IntPrint. zork ).~c = ( 1 _IntPrint. 2 + (3 _IntPrint _IntMul: nil) ).~d = ( | i <- 0 | [ i < 4 ] whileTrue: [ i _IntPrint. i: i + 1 ] ).~;spawn a~run 999~spawn b~run 999~spawn c~\
run 999~spawn d~run 999~;activity 1~out 1~out b~out 3~done 3 at 11~activity 2~out 1~error notUnderstood at 14 line 11:20~activity 3~out 1~out 3~error badTypeError at 21 line 12:37~activity 4~out 0~out 1~out 2~out 3~done nil at 160~;0";

// What is made until nothing is left: `fill:` makes 63 vectors of 65,536 elements and one of so many, and leaves 65,344 less than that.
const STORES: &str = "\
main = ( 1000 _VectorNew. _Restart ).~;spawn main~run 100000~;activity 1~error storeFull at 16725 line 10:15~;0
v <- nil.~set = ( v: 65536 _VectorNew ).~loop = ( v _Clone. _Restart ).~main = ( set. loop ).~;spawn main~run 10000000~;activity 1~error storeFull at 256 line 12:12~;0
v = ( 65536 _VectorNew ).~w = ( v. v. v. v. v. v. v. v ).~fill: n = ( w. w. w. w. w. w. w. v. v. v. v. v. v. v. n _VectorNew ).~o = ( | x. y | ).~loop = ( o _Clone. _Restart ).~main = ( fill: 65280. loop ).~a = ( 7 ).~;spawn main~run 9999~spawn loop~run 9~spawn a~run 9~;activity 1~error storeFull at 401 line 14:12~activity 2~error storeFull at 402 line 14:12~activity 3~done 7 at 404~;0
v = ( 65536 _VectorNew ).~w = ( v. v. v. v. v. v. v. v ).~fill: n = ( w. w. w. w. w. w. w. v. v. v. v. v. v. v. n _VectorNew ).~h = ( [ 1 ] value ).~main = ( fill: 65344 ).~a = ( 0 _VectorNew ).~b = ( 65537 _VectorNew ).~\
c = ( 3 _Clone. 'a' _Clone ).~;spawn main~run 9999~spawn h~spawn a~run 9~spawn b~run 9~spawn c~run 9~spawn h~;activity 1~done #98 at 335~refused storeFull~activity 2~error storeFull at 336 line 15:9~activity 3~\
error badSizeError at 337 line 16:13~activity 4~done #8 at 343~refused too many activities~;0
v = ( 65536 _VectorNew ).~w = ( v. v. v. v. v. v. v. v ).~fill: n = ( w. w. w. w. w. w. w. v. v. v. v. v. v. v. n _VectorNew ).~main = ( fill: 65345 ).~a = ( 65345 _VectorNew ).~b = ( 65344 _VectorNew _Size ).~c = ( 0 _VectorNew ).~;\
spawn main~run 9999~spawn a~run 9~spawn b~run 9~spawn c~run 9~;activity 1~error storeFull at 332 line 12:57~activity 2~error storeFull at 333 line 14:13~activity 3~done 65344 at 337~activity 4~error storeFull at 338 line 16:9~;0
v = ( 65536 _VectorNew ).~w = ( v. v. v. v. v. v. v. v ).~fill: n = ( w. w. w. w. w. w. w. v. v. v. v. v. v. v. n _VectorNew ).~o = ( | x. y | ).~e = ().~h = ( [ 1 ] value ).~main = ( fill: 65341. h ).~a = ( o _Clone ).~b = ( e _Clone ).~\
c = ( 0 _VectorNew ).~;spawn main~run 9999~spawn h~spawn a~run 9~spawn b~run 9~spawn c~run 9~;activity 1~error storeFull at 335 line 16:23~refused storeFull~activity 2~error storeFull at 336 line 17:9~activity 3~done #100 at 339~activity 4~\
error storeFull at 340 line 19:9~;0
v = ( 65536 _VectorNew ).~w = ( v. v. v. v. v. v. v. v ).~fill: n = ( w. w. w. w. w. w. w. v. v. v. v. v. v. v. n _VectorNew ).~o = ( | x. y | ).~main = ( fill: 65340. 2 _VectorNew ).~a = ( o _Clone x ).~b = ( o _Clone ).~h = ( [ 1 ] ).~;\
spawn main~run 9999~spawn a~run 9~spawn h~spawn b~run 9~;activity 1~error storeFull at 336 line 14:25~activity 2~done nil at 340~refused storeFull~activity 3~error storeFull at 341 line 16:9~;0
v = ( 65536 _VectorNew ).~w = ( v. v. v. v. v. v. v. v ).~fill: n = ( w. w. w. w. w. w. w. v. v. v. v. v. v. v. n _VectorNew ).~h = ( [ 1 ] value ).~main = ( fill: 65340. h ).~k = ( 7 ).~;spawn main~run 9999~spawn k~run 9~;activity 1~error storeFull at 336 line 13:7~activity 2~done 7 at 338~;0
v = ( 65536 _VectorNew ).~w = ( v. v. v. v. v. v. v. v ).~fill: n = ( w. w. w. w. w. w. w. v. v. v. v. v. v. v. n _VectorNew ).~h = ( [ 1 ] value ).~main = ( fill: 65340 ).~;spawn main~run 9999~spawn h~run 0~step~spawn h~;activity 1~done #97 at 335~activity 2~stop at 335 line 13:7~error storeFull at 335 line 13:7~refused storeFull~;0
v = ( 65536 _VectorNew ).~w = ( v. v. v. v. v. v. v. v ).~fill: n = ( w. w. w. w. w. w. w. v. v. v. v. v. v. v. n _VectorNew ).~h = ( [ 1 ] value ).~main = ( fill: 65336. h ).~k = ( [ ] ).~;spawn main~run 9999~spawn k~run 9~;activity 1~done 1 at 342~refused storeFull~refused ended~;0
v = ( 65536 _VectorNew ).~w = ( v. v. v. v. v. v. v. v ).~fill: n = ( w. w. w. w. w. w. w. v. v. v. v. v. v. v. n _VectorNew ).~h: a = ( | t | [ a ] value ).~main = ( fill: 65335. h: 3 ).~;spawn main~run 9999~;activity 1~error storeFull at 337 line 13:16~;0
v = ( 65536 _VectorNew ).~w = ( v. v. v. v. v. v. v. v ).~fill: n = ( w. w. w. w. w. w. w. v. v. v. v. v. v. v. n _VectorNew ).~h: a = ( | t | [ a ] value ).~main = ( fill: 65334. h: 3 ).~;spawn main~run 9999~;activity 1~done 3 at 343~;0
v = ( 65536 _VectorNew ).~w = ( v. v. v. v. v. v. v. v ).~fill: n = ( w. w. w. w. w. w. w. v. v. v. v. v. v. v. n _VectorNew ).~h: a = ( | t | t: [ | x | [ a ] value ]. t value ).~main = ( fill: 65329. h: 3 ).~;spawn main~run 9999~;activity 1~error storeFull at 342 line 13:27~;0
v = ( 65536 _VectorNew ).~w = ( v. v. v. v. v. v. v. v ).~fill: n = ( w. w. w. w. w. w. w. v. v. v. v. v. v. v. n _VectorNew ).~h: a = ( | t | t: [ | x | [ a ] value ]. t value ).~main = ( fill: 65325. h: 3 ).~;spawn main~run 9999~;activity 1~done 3 at 349~;0
v = ( 65536 _VectorNew ).~w = ( v. v. v. v. v. v. v. v ).~fill: n = ( w. w. w. w. w. w. w. v. v. v. v. v. v. v. n _VectorNew ).~keep <- nil.~make = ( keep: [ [ 1 ] value ] ).~main = ( make. fill: 65336. keep value ).~;spawn main~run 10000000~;activity 1~error nonLifoBlock at 341 line 15:34~;0
v = ( 65536 _VectorNew ).~w = ( v. v. v. v. v. v. v. v ).~fill: n = ( w. w. w. w. w. w. w. v. v. v. v. v. v. v. n _VectorNew ).~keep <- nil.~main = ( keep: [ [ 1 ] value ]. fill: 65336. keep value ).~;spawn main~run 10000000~;activity 1~error storeFull at 339 line 14:51~;0
v = ( 65536 _VectorNew ).~w = ( v. v. v. v. v. v. v. v ).~fill: n = ( w. w. w. w. w. w. w. v. v. v. v. v. v. v. n _VectorNew ).~k <- 0.~last = ( | parent* = lobby. value = ( h ) | ).~more = ( | parent* = lobby. value = ( down ) | ).~\
down = ( k: k - 1. (k _IntEQ: 0) ifTrue: last False: more ).~h = ( [ 1 ] value ).~main = ( fill: 65344. k: 1365. down ).~;spawn main~run 10000000~;activity 1~error stackOverflow at 23543 line 14:39~;0
v = ( 65536 _VectorNew ).~w = ( v. v. v. v. v. v. v. v ).~fill: n = ( w. w. w. w. w. w. w. v. v. v. v. v. v. v. n _VectorNew ).~k <- 0.~last = ( | parent* = lobby. value = ( h ) | ).~more = ( | parent* = lobby. value = ( down ) | ).~\
down = ( k: k - 1. (k _IntEQ: 0) ifTrue: last False: more ).~h = ( [ 1 ] value ).~main = ( fill: 65344. k: 1364. down ).~;spawn main~run 10000000~;activity 1~error storeFull at 23526 line 14:39~;0";

#[test]
fn adds_and_multiplies(rt: HostRuntime) -> Result<(), Fail> {
    for row in SUMS.split('\n') {
        assert!(rt; agrees(rt.alloc(), row)?, "{row}");
    }
    Ok(())
}

#[test]
fn divides(rt: HostRuntime) -> Result<(), Fail> {
    for row in QUOTIENTS.split('\n') {
        assert!(rt; agrees(rt.alloc(), row)?, "{row}");
    }
    Ok(())
}

#[test]
fn compares_integers(rt: HostRuntime) -> Result<(), Fail> {
    for row in BITS.split('\n') {
        assert!(rt; agrees(rt.alloc(), row)?, "{row}");
    }
    Ok(())
}

#[test]
fn clones_objects(rt: HostRuntime) -> Result<(), Fail> {
    for row in OBJECTS.split('\n') {
        assert!(rt; agrees(rt.alloc(), row)?, "{row}");
    }
    Ok(())
}

#[test]
fn keeps_elements(rt: HostRuntime) -> Result<(), Fail> {
    for row in VECTORS.split('\n') {
        assert!(rt; agrees(rt.alloc(), row)?, "{row}");
    }
    Ok(())
}

#[test]
fn prints_strings(rt: HostRuntime) -> Result<(), Fail> {
    for row in STRINGS.split('\n') {
        assert!(rt; agrees(rt.alloc(), row)?, "{row}");
    }
    Ok(())
}

#[test]
fn tests_types_first(rt: HostRuntime) -> Result<(), Fail> {
    for row in TYPES.split('\n') {
        assert!(rt; agrees(rt.alloc(), row)?, "{row}");
    }
    Ok(())
}

#[test]
fn prints_in_order(rt: HostRuntime) -> Result<(), Fail> {
    for row in OUTS.split('\n') {
        assert!(rt; agrees(rt.alloc(), row)?, "{row}");
    }
    Ok(())
}

#[test]
fn fills_the_store(rt: HostRuntime) -> Result<(), Fail> {
    for row in STORES.split('\n') {
        assert!(rt; agrees(rt.alloc(), row)?, "{row}");
    }
    Ok(())
}
