// Worlds whose methods have blocks. The tables are as those of `harness`.

use crate::harness::agrees;
use std::test::Fail;

// Blocks that answer: none, one and more arguments, and locals of their own.
const VALUES: &str = "\
f: b = ( b value + 1 ).~main = ( f: [ 4 ] ).~;spawn main~run 10000000~;activity 1~done 5 at 13~;0
f: b = ( b value: 2 With: 9 ).~main = ( (f: [ | :x. :y | y - x ]) + (f: [ | :x. :y | x ]) ).~;spawn main~run 10000000~;activity 1~done 9 at 28~;0
keep <- nil.~main = ( keep: [ 5 ]. keep value ).~;spawn main~run 10000000~;activity 1~done 5 at 8~;0
o = ( | b | ).~main = ( o b: [ | :a | a ]. o b value: 6 ).~;spawn main~run 10000000~;activity 1~done 6 at 11~;0
x = 9.~main = ( [ 1 ] x ).~;spawn main~run 10000000~;activity 1~done 9 at 3~;0
me = ( value ).~main = ( [ 8 ] me ).~;spawn main~run 10000000~;activity 1~done 8 at 7~;0
me: n = ( value: n With: n ).~main = ( [ | :a. :b | a + b ] me: 8 ).~;spawn main~run 10000000~;activity 1~done 16 at 15~;0
make = ( [ 3 ] ).~main = ( make. make. make ).~;spawn main~run 10000000~;activity 1~done [12@-] at 12~;0
a = ( [ 3 ] value ).~b = ( [ ] value ).~c = ( [ | :a | ] value: 3 ).~d = ( [ | :a | a + 1 ] value: 4 ).~;spawn a~run 999~spawn b~run 999~spawn c~run 999~spawn d~run 999~;activity 1~done 3 at 5~activity 2~done nil at 10~activity 3~done nil at 16~activity 4~done 5 at 27~;0
a = ( [ | :a. :b | a - b ] value: 9 With: 4 ).~b = ( [ | :a. :b. :c | a - b - c ] value: 9 With: 4 With: 1 ).~c = ( [ | :a. :b. :c. :d | a - b - c - d ] value: 100 With: 1 With: 2 With: 3 ).~\
d = ( [ | :a. :b. :c. :d. :e | a - b - c - d - e ] value: 100 With: 1 With: 2 With: 3 With: 4 ).~;spawn a~run 999~spawn b~run 999~spawn c~run 999~spawn d~run 999~;activity 1~done 5 at 12~activity 2~done 4 at 30~activity 3~done 94 at 54~\
activity 4~done 90 at 84~;0
a = ( [ | :a. :b. :c. :d. :e | e ] value: 1 With: 2 With: 3 With: 4 With: 5 ).~b = ( [ | k = 5. :a. t <- 1 | t: t + a. t + k ] value: 2 ).~c = ( [ | t | t ] value ).~d = ( | b | b: [ | t <- 1 | t: t + 1. t ]. (b value) + (b value) ).~;spawn a~run 999~spawn b~run 999~spawn c~run 999~spawn d~run 999~;activity 1~done 5 at 10~activity 2~done 8 at 29~activity 3~done nil at 34~activity 4~done 4 at 66~;0
a = ( [ [ [ 7 ] value ] value ] value ).~b = ( [ 1. 2. 3 ] value ).~c = ( [ self ] value ).~d = ( [ 3 ] ).~;spawn a~run 999~spawn b~run 999~spawn c~run 999~spawn d~run 999~;activity 1~done 7 at 11~activity 2~done 3 at 20~activity 3~done lobby at 25~activity 4~done [20@-] at 27~;0
main = ( [ [ 3 ] ] value ).~;spawn main~run 10000000~;activity 1~done [13@-] at 5~;0";

// Locals and receivers of the bodies around a block.
const LOCALS: &str = "\
x <- 7.~main = ( | x = 1 | [ x: 3 ] value. x + self x ).~;spawn main~run 10000000~;activity 1~done 4 at 14~;0
f: n = ( [ | :d | n + d ] value: 10 ).~main = ( (f: 1) + (f: 2) ).~;spawn main~run 10000000~;activity 1~done 23 at 31~;0
f: n = ( [ n: 3 ] value. n ).~n <- 1.~main = ( (f: 8) + n ).~;spawn main~run 10000000~;activity 1~done 11 at 16~;0
f: n = ( n _IntEQ: 0 ).~g: n = ( | b | b: [ n ]. (f: n) ifTrue: [ 0 ] False: [ (g: n - 1) + b value ] ).~main = ( g: 6 ).~;spawn main~run 10000000~;activity 1~done 21 at 213~;0
o = ( | parent* = lobby. k = 6. ap: b = ( b value ). go = ( ap: [ k ] ) | ).~k = 1.~main = ( o go ).~;spawn main~run 10000000~;activity 1~done 6 at 11~;0
o = ( | parent* = lobby. k = 6. go: b = ( b value + k ) | ).~k = 1.~main = ( o go: [ k ] ).~;spawn main~run 10000000~;activity 1~done 7 at 14~;0
o = ( | parent* = lobby. k <- 6. go = ( [ k: k + 1 ] value. k ) | ).~main = ( o go ).~;spawn main~run 10000000~;activity 1~done 7 at 16~;0
a = ( | parent* = lobby. k = 1. get = ( [ self k ] value ) | ).~b = ( | parent* = a. k = 2 | ).~main = ( b get ).~;spawn main~run 10000000~;activity 1~done 2 at 9~;0
c <- 0.~tick = ( c: c + 1. c ).~main = ( | b | b: [ | :n | n - tick ]. (b value: tick) - (b value: tick) ).~;spawn main~run 10000000~;activity 1~done 0 at 68~;0
f: a B: b C: c D: d E: e = ( | x0 <- 0. x1 <- 1. x2 <- 2. x3 <- 3. x4 <- 4. x5 <- 5. x6 <- 6. x7 <- 7. x8 <- 8. x9 <- 9. x10 <- 10. x11 <- 11. x12 <- 12. x13 <- 13. x14 <- 14. x15 <- 15. x16 <- 16. x17 <- 17. x18 <- 18. x19 <- 19. x20 <- \
20. x21 <- 21. x22 <- 22. x23 <- 23. x24 <- 24. x25 <- 25. x26 <- 26. x27 <- 27. x28 <- 28. x29 <- 29. x30 <- 30. x31 <- 31. x32 <- 32. x33 <- 33. x34 <- 34. x35 <- 35. x36 <- 36. x37 <- 37. x38 <- 38. x39 <- 39. x40 <- 40. x41 <- 41. x42 \
<- 42. x43 <- 43. x44 <- 44. x45 <- 45. x46 <- 46. x47 <- 47. x48 <- 48. x49 <- 49. x50 <- 50. x51 <- 51. x52 <- 52. x53 <- 53. x54 <- 54. x55 <- 55. x56 <- 56. x57 <- 57. x58 <- 58. x59 <- 59. x60 <- 60. x61 <- 61. x62 <- 62. x63 <- 63 | \
x0: x63 + e. [ x63: x63 + x0. x1: a ] value. x63 + x1 + x62 ).~main = ( f: 1000 B: 2 C: 3 D: 4 E: 5 ).~;spawn main~run 10000000~;activity 1~done 1193 at 41~;0
f: n = ( [ | :a. :b. :c. :d. :e. x0 <- 0. x1 <- 1. x2 <- 2. x3 <- 3. x4 <- 4. x5 <- 5. x6 <- 6. x7 <- 7. x8 <- 8. x9 <- 9. x10 <- 10. x11 <- 11. x12 <- 12. x13 <- 13. x14 <- 14. x15 <- 15. x16 <- 16. x17 <- 17. x18 <- 18. x19 <- 19. x20 <- \
20. x21 <- 21. x22 <- 22. x23 <- 23. x24 <- 24. x25 <- 25. x26 <- 26. x27 <- 27. x28 <- 28. x29 <- 29. x30 <- 30. x31 <- 31. x32 <- 32. x33 <- 33. x34 <- 34. x35 <- 35. x36 <- 36. x37 <- 37. x38 <- 38. x39 <- 39. x40 <- 40. x41 <- 41. x42 \
<- 42. x43 <- 43. x44 <- 44. x45 <- 45. x46 <- 46. x47 <- 47. x48 <- 48. x49 <- 49. x50 <- 50. x51 <- 51. x52 <- 52. x53 <- 53. x54 <- 54. x55 <- 55. x56 <- 56. x57 <- 57. x58 <- 58. x59 <- 59. x60 <- 60. x61 <- 61. x62 <- 62. x63 <- 63 | \
x63: x63 + e + n. [ x0: x63 + a ] value. x0 + x62 ] value: 1000 With: 2 With: 3 With: 4 With: 5 ).~main = ( f: 10000 ).~;spawn main~run 10000000~;activity 1~done 11130 at 42~;0
times: n Do: b = ( n = 0 ifTrue: [ ^ self ] False: [ ]. b value. times: n - 1 Do: b ).~main = ( | s <- 0 | times: 20 Do: [ s: s + 3 ]. s ).~;spawn main~run 10000000~;activity 1~done 60 at 719~;0
down: n Do: b = ( n = 0 ifTrue: [ b value ] False: [ down: n - 1 Do: b ] ).~main = ( | s <- 1 | down: 30 Do: [ s: s + 1 ]. down: 3 Do: [ s: s + s ]. s ).~;spawn main~run 10000000~;activity 1~done 4 at 784~;0
f: n = ( | t <- 5 | n = 0 ifTrue: [ ^ 0 ] False: [ ]. t: n. (f: n - 1) + [ t ] value ).~main = ( f: 12 ).~;spawn main~run 10000000~;activity 1~done 78 at 424~;0
a = ( | s <- 4 | [ s ] value ).~b = ( | s <- 4 | [ s: 5 ] value. s ).~c = ( | s <- 4 | [ s: 5 ] value ).~d = ( | b. s <- 0 | b: [ s: s + 1. s ]. b value. b value. (b value) + s ).~;spawn a~run 999~spawn b~run 999~spawn c~run 999~spawn d~run 999~;activity 1~done 4 at 5~activity 2~done 5 at 13~activity 3~done lobby at 19~activity 4~done 6 at 66~;0
a = ( | s <- 1 | [ | t <- 10 | [ | u <- 100 | s: s + u. t: t + s. t + u ] value + t ] value + s ).~b = ( | x <- 1 | [ | x = 5 | x: 2. x ] value + x ).~c = ( | x <- 1 | [ | x <- 5 | x: 2. x ] value + x ).~\
d = ( | x = 1 | [ | :x | [ x ] value ] value: 6 ).~;spawn a~run 999~spawn b~run 999~spawn c~run 999~spawn d~run 999~;activity 1~done 423 at 39~activity 2~done 7 at 52~activity 3~done 3 at 65~activity 4~done 6 at 74~;0
a = ( | i <- 0. s <- 0 | [ i < 10 ] whileTrue: [ s: s + 3. i: i + 1 ]. s ).~b = ( | i <- 0. s <- 0. j | [ i < 4 ] whileTrue: [ j: 0. [ j < i ] whileTrue: [ s: s + j. j: j + 1 ]. i: i + 1 ]. s ).~\
c = ( | a. b. c. d. e. f. g. h. i. j. k. l | a: 1. l: 12. [ | m <- 13 | [ a + l + m ] value ] value ).~d = ( | s <- 1 | [ [ [ [ [ [ [ [ [ [ [ [ s: s + 1. s ] value ] value ] value ] value ] value ] value ] value ] value ] value ] value ] \
value ] value + s ).~;spawn a~run 999~spawn b~run 999~spawn c~run 999~spawn d~run 999~;activity 1~done 30 at 371~activity 2~done 4 at 798~activity 3~done 26 at 822~activity 4~done 4 at 873~;0
main = ( | s <- 1 | [ | :a | [ | :b | [ | :c | [ | :d | [ | :e | s: a + b. a - b - c - d - e - s ] value: 5 ] value: 4 ] value: 3 ] value: 2 ] value: 100 ).~;spawn main~run 10000000~;activity 1~done -16 at 55~;0";

// Returns from blocks, and bodies that begin again.
const RETURNS: &str = "\
f = ( [ ^ 4 ] value. 8 ).~main = ( f + 1 ).~;spawn main~run 10000000~;activity 1~done 5 at 11~;0
f = ( 1 + [ ^ 7 ] value ).~main = ( 10 - f ).~;spawn main~run 10000000~;activity 1~done 3 at 12~;0
f = ( 1 - (2 - (3 - [ ^ 7 ] value)) ).~main = ( 10 - (20 - f) ).~;spawn main~run 10000000~;activity 1~done -3 at 19~;0
deep = ( [ [ [ ^ 9 ] value ] value ] value. 8 ).~main = ( deep ).~;spawn main~run 8~run 9~;activity 1~stop at 8 line 10:16~done 9 at 10~;0
h: b = ( b value. 2 ).~g: b = ( h: b. 1 ).~f = ( g: [ ^ 3 ]. 4 ).~main = ( f ).~;spawn main~run 10000000~;activity 1~done 3 at 10~;0
h: b = ( [ b value. 2 ] value. 5 ).~g: b = ( h: [ b value. 6 ]. 1 ).~f = ( g: [ ^ 3 ]. 4 ).~main = ( f ).~;spawn main~run 10000000~;activity 1~done 3 at 14~;0
h: b = ( [ ^ b value ] value. 5 ).~f = ( (h: [ 6 ]) + 1 ).~main = ( f ).~;spawn main~run 10000000~;activity 1~done 7 at 17~;0
f: n = ( n = 0 ifTrue: [ ^ 0 ] False: [ ]. 1 + (f: n - 1) ).~main = ( f: 5 ).~;spawn main~run 10000000~;activity 1~done 5 at 156~;0
f: n = ( n = 0 ifTrue: [ ^ 0 ] False: [ ^ 1 + (f: n - 1) ]. 50 ).~main = ( f: 5 ).~;spawn main~run 10000000~;activity 1~done 5 at 136~;0
down: n Do: b = ( n = 0 ifTrue: [ b value ] False: [ down: n - 1 Do: b ] ).~f = ( down: 20 Do: [ ^ 42 ]. 1 ).~main = ( f + 1 ).~;spawn main~run 10000000~;activity 1~done 43 at 405~;0
down: n Do: b = ( n = 0 ifTrue: [ b value: n ] False: [ down: n - 1 Do: [ | :x | b value: x + 1 ] ] ).~f = ( down: 8 Do: [ | :x | ^ x ]. 1 ).~main = ( f + 1 ).~;spawn main~run 10000000~;activity 1~done 9 at 242~;0
f: n = ( | b | b: [ ^ n ]. n = 3 ifTrue: b False: [ (f: n - 1) + 10 ] ).~main = ( f: 5 ).~;spawn main~run 10000000~;activity 1~done 23 at 77~;0
loop = ( | i <- 0 | [ i = 3 ifTrue: [ ^ i ] False: [ i: i + 1 ]. _Restart ] value ).~main = ( loop ).~;spawn main~run 10000000~;activity 1~done 3 at 83~;0
loop = ( | i <- 0 | i = 5 ifTrue: [ ^ i ] False: [ ]. i: i + 1. _Restart ).~main = ( loop + loop ).~;spawn main~run 10000000~;activity 1~done 10 at 273~;0
loop = ( [ | n <- 0 | n = 4 ifTrue: [ ^ n ] False: [ n: n + 1 ]. _Restart ] value. 9 ).~main = ( loop ).~;spawn main~run 10000000~;activity 1~done 4 at 105~;0
loop = ( | i <- 0 | [ | :a. t <- 10 | t: t - 1. i: i + a. t = 7 ifTrue: [ ^ i ] False: [ ]. _Restart ] value: 5 ).~main = ( loop ).~;spawn main~run 10000000~;activity 1~done 15 at 98~;0
k <- 0.~loop = ( | b | k = 3 ifTrue: [ ^ b value ] False: [ ]. b: [ k ]. k: k + 1. _Restart ).~main = ( loop ).~;spawn main~run 10000000~;activity 1~done 3 at 99~;0
find: n = ( | i <- 0 | [ i < 6 ] whileTrue: [ i = n ifTrue: [ ^ i + 100 ] False: [ i: i + 1 ] ]. -1 ).~main = ( (find: 4) + (find: 40) ).~;spawn main~run 10000000~;activity 1~done 103 at 466~;0
down: n Do: b = ( n = 0 ifTrue: [ b value ] False: [ down: n - 1 Do: b ] ).~f = ( down: 1350 Do: [ ^ 42 ]. 1 ).~main = ( f + f ).~;spawn main~run 10000000~;activity 1~done 84 at 51343~;0
o = ( | parent* = lobby. k = 6. go = ( each: [ | :x | x = k ifTrue: [ ^ x + 1 ] False: [ ] ]. 0 ). each: b = ( b value: 5. b value: 6. b value: 7 ) | ).~main = ( o go ).~;spawn main~run 10000000~;activity 1~done 7 at 45~;0
keep <- nil.~f = ( keep: [ ^ 3 ]. g. 4 ).~g = ( keep value. 5 ).~main = ( f + 1 ).~;spawn main~run 10000000~;activity 1~done 4 at 15~;0
abs = ( (self < 0) ifTrue: [ ^ 0 - self ] False: [ ]. self ).~main = ( (-5 abs) - (3 abs) ).~;spawn main~run 10000000~;activity 1~done 2 at 44~;0
a: n = ( n = 0 ifTrue: [ ^ 0 ] False: [ ^ b: n - 1 ] ).~b: n = ( n = 0 ifTrue: [ ^ 1 ] False: [ ^ a: n - 1 ] ).~main = ( a: 7 ).~;spawn main~run 10000000~;activity 1~done 1 at 149~;0
a = ( [ ^ 5 ] value. 6 ).~b = ( [ ^ self ] value. 6 ).~c = ( [ ^ [ 6 ] ] value. 6 ).~;spawn a~run 999~spawn b~run 999~spawn c~run 999~;activity 1~done 5 at 4~activity 2~done lobby at 8~activity 3~done [17@-] at 12~;0";

// Blocks that resend: the holder is that of the method around them.
const RESENDS: &str = "\
t = ( | parent* = lobby. who = ( 1 ) | ).~u = ( | parent* = t. who = ( 2 ). ask = ( [ resend.who ] value ) | ).~v = ( | parent* = u. who = ( 3 ) | ).~main = ( v ask ).~;spawn main~run 10000000~;activity 1~done 1 at 10~;0
t = ( | parent* = lobby. who = ( 1 ) | ).~u = ( | parent* = t. who = ( [ [ resend.who ] value + 4 ] value ) | ).~v = ( | parent* = u | ).~main = ( v who ).~;spawn main~run 10000000~;activity 1~done 5 at 18~;0
t = ( | who = ( 1 ) | ).~s = ( | who = ( 2 ) | ).~u = ( | l* = t. r* = s. ask = ( [ l.who - r.who ] value ) | ).~main = ( u ask ).~;spawn main~run 10000000~;activity 1~done -1 at 17~;0
t = ( | who = ( 1 ) | ).~s = ( | who = ( 2 ) | ).~u = ( | l* = t. r* = s. ask = ( [ resend.who ] value ) | ).~main = ( u ask ).~;spawn main~run 10000000~;activity 1~error ambiguous at 4 line 12:35~;0
t = ( | at: i = ( i - k ) | ).~u = ( | parent* = t. k = 7. at: i = ( [ | :d | resend.at: i + d ] value: 10 ) | ).~main = ( u at: 1 ).~;spawn main~run 10000000~;activity 1~done 4 at 23~;0
t = ( | parent* = lobby. do: b = ( b value ) | ).~u = ( | parent* = t. do: b = ( resend.do: [ b value + 1 ] ) | ).~main = ( u do: [ 5 ] ).~;spawn main~run 10000000~;activity 1~done 6 at 20~;0
t = ( | parent* = lobby. who = ( 1 ) | ).~u = ( | parent* = t. who = ( [ ^ resend.who ] value. 9 ) | ).~v = ( | parent* = u. who = ( [ ^ resend.who + 10 ] value. 9 ) | ).~main = ( v who ).~;spawn main~run 10000000~;activity 1~done 11 at 18~;0
x = ( [ resend.x ] value ).~main = ( x ).~;spawn main~run 10000000~;activity 1~error notUnderstood at 3 line 10:9~;0
me = ( [ value ] value ).~main = ( [ 8 ] me ).~;spawn main~run 10000000~;activity 1~done 8 at 10~;0";

// Errors of blocks, in their order.
const ERRORS: &str = "\
make = ( [ 5 ] ).~main = ( make value ).~;spawn main~run 10000000~;activity 1~error nonLifoBlock at 3 line 11:15~;0
make = ( [ ^ 5 ] ).~main = ( make value ).~;spawn main~run 10000000~;activity 1~error nonLifoBlock at 3 line 11:15~;0
make = ( [ | :a | a ] ).~main = ( make value: 3 ).~;spawn main~run 10000000~;activity 1~error nonLifoBlock at 4 line 11:15~;0
make = ( [ | :a | a ] ).~main = ( make value ).~;spawn main~run 10000000~;activity 1~error notUnderstood at 3 line 11:15~;0
make = ( [ [ 5 ] ] ).~main = ( make value value ).~;spawn main~run 10000000~;activity 1~error nonLifoBlock at 3 line 11:15~;0
keep <- nil.~make = ( keep: [ 5 ] ).~main = ( make. keep value ).~;spawn main~run 10000000~;activity 1~error nonLifoBlock at 6 line 12:21~;0
keep <- nil.~make = ( keep: [ 5 ]. keep value ).~main = ( make + keep value ).~;spawn main~run 10000000~;activity 1~error nonLifoBlock at 10 line 12:22~;0
f: n = ( | b | b: [ n ]. n = 0 ifTrue: [ ^ b ] False: [ ^ f: n - 1 ] ).~main = ( (f: 3) value ).~;spawn main~run 10000000~;activity 1~error nonLifoBlock at 84 line 11:17~;0
f: n Try: b = ( n = 0 ifTrue: [ ^ b value ] False: [ ^ f: n - 1 Try: b ] ).~make = ( [ 7 ] ).~main = ( f: 3 Try: make ).~;spawn main~run 10000000~;activity 1~error nonLifoBlock at 74 line 10:37~;0
keep <- nil.~hold = ( keep: [ 5 ]. 1 + 2 ).~main = ( keep value ).~;spawn hold~run 3~spawn main~run 9~;activity 1~stop at 3 line 11:23~activity 2~error nonLifoBlock at 4 line 12:15~;0
keep <- nil.~hold = ( keep: [ 5 ]. 1 + 2 ).~main = ( keep value ).~;spawn hold~run 3~spawn main~run 1~switch 1~run 99~switch 2~run 9~;activity 1~stop at 3 line 11:23~activity 2~stop at 4 line 12:15~activity 1~done 3 at 11~activity 2~error nonLifoBlock at 11 line 12:15~;0
keep <- nil.~hold = ( keep: [ 5 ]. keep value + 2 ).~main = ( keep value ).~;spawn hold~run 3~spawn main~run 9~switch 1~run 99~;activity 1~stop at 3 line 11:23~activity 2~error nonLifoBlock at 4 line 12:15~activity 1~done 7 at 14~;0
keep <- nil.~hold = ( keep: [ 5 ]. nil zork ).~main = ( keep value ).~;spawn hold~run 9~spawn main~run 9~;activity 1~error notUnderstood at 4 line 11:27~activity 2~error nonLifoBlock at 5 line 12:15~;0
keep <- nil.~hold = ( keep: [ ^ 5 ]. 1 ).~main = ( keep value. 2 ).~;spawn hold~run 9~spawn main~run 9~;activity 1~done 1 at 5~activity 2~error nonLifoBlock at 6 line 12:15~;0
keep <- nil.~hold = ( keep: [ | :a | a ]. 1 ).~main = ( keep value ).~;spawn hold~run 3~spawn main~run 9~;activity 1~stop at 3 line 11:30~activity 2~error notUnderstood at 4 line 12:15~;0
down: n = ( (n = 0) ifTrue: [ 0 ] False: [ 1 + (down: n - 1) ] ).~main = ( down: 1364 ).~;spawn main~run 10000000~;activity 1~done 1364 at 35482~;0
down: n = ( (n = 0) ifTrue: [ 0 ] False: [ 1 + (down: n - 1) ] ).~main = ( down: 1365 ).~;spawn main~run 10000000~;activity 1~error stackOverflow at 25932 line 10:57~;0
keep <- nil.~make = ( keep: [ 5 ] ).~g: n = ( (n _IntEQ: 0) ifTrue: [ keep value ] False: [ g: n - 1 ] ).~main = ( make. g: 1364 ).~;spawn main~run 10000000~;activity 1~error nonLifoBlock at 20476 line 12:39~;0
keep <- nil.~g: n = ( (n _IntEQ: 0) ifTrue: [ keep value ] False: [ g: n - 1 ] ).~main = ( keep: [ 5 ]. g: 1364 ).~;spawn main~run 10000000~;activity 1~error stackOverflow at 20474 line 11:39~;0
keep <- nil.~g: n = ( (n _IntEQ: 0) ifTrue: [ keep value ] False: [ g: n - 1 ] ).~main = ( keep: [ 5 ]. g: 1363 ).~;spawn main~run 10000000~;activity 1~done 5 at 24555~;0
g: n = ( (n _IntEQ: 0) ifTrue: [ self zork ] False: [ g: n - 1 ] ).~main = ( g: 1364 ).~;spawn main~run 10000000~;activity 1~error notUnderstood at 20471 line 10:39~;0
f = ( [ f ] value ).~main = ( f ).~;spawn main~run 10000000~;activity 1~error stackOverflow at 6143 line 10:13~;0
a = ( [ 3 ] value: 4 ).~b = ( [ | :a | a ] value ).~c = ( [ | :a | a ] value: 4 With: 5 ).~d = ( [ | :a. :b. :c. :d. :e | a ] value: 4 With: 5 ).~;spawn a~run 999~spawn b~run 999~spawn c~run 999~spawn d~run 999~;activity 1~\
error notUnderstood at 2 line 10:13~activity 2~error notUnderstood at 3 line 11:20~activity 3~error notUnderstood at 6 line 12:20~activity 4~error notUnderstood at 9 line 13:36~;0
a = ( [ 3 ] zork ).~b = ( 3 value ).~c = ( 1. [ | :a | a zork ] value: 4 ).~d = ( [ [ [ 7 ] ] value ] value value ).~;spawn a~run 999~spawn b~run 999~spawn c~run 999~spawn d~run 999~;activity 1~error notUnderstood at 1 line 10:13~activity 2~error notUnderstood at 2 line 11:9~activity 3~error notUnderstood at 8 line 12:21~activity 4~error nonLifoBlock at 15 line 13:33~;0
a = ( | b | [ b: [ 5 ] ] value. b value ).~b = ( | b | [ b: [ 5 ]. b value ] value ).~c = ( | b <- 7 | [ | :x | b value: x ] value: 3 ).~;spawn a~run 999~spawn b~run 999~spawn c~run 999~;activity 1~error nonLifoBlock at 7 line 10:35~activity 2~done 5 at 18~activity 3~error notUnderstood at 23 line 12:29~;0";

// Messages to `true` and `false`, with blocks and with other objects.
const TRUTHS: &str = "\
o = ( | value = ( 5 ) | ).~p = ( | value = 6 | ).~main = ( (true ifTrue: o False: p) + (false ifTrue: o False: p) ).~;spawn main~run 10000000~;activity 1~done 11 at 21~;0
value = 8.~main = ( (true ifTrue: 1 False: 2) + (false ifTrue: 'a' False: 'b') ).~;spawn main~run 10000000~;activity 1~done 16 at 19~;0
value = 8.~main = ( false ifTrue: 'a' False: nil ).~;spawn main~run 10000000~;activity 1~error notUnderstood at 5 line 3:55~;0
t = ( | parent* = lobby. and: b = ( b value ) | ).~f = ( | parent* = lobby. and: b = ( self ) | ).~main = ( (t and: [ f ]) and: [ zork ] ).~;spawn main~run 10000000~;activity 1~done #9 at 13~;0
a = ( true ifTrue: [ 1 ] False: [ 2 ] ).~b = ( false ifTrue: [ 1 ] False: [ 2 ] ).~c = ( 3 < 4 ifTrue: [ 1 ] False: [ zork ] ).~d = ( 4 < 3 ifTrue: [ zork ] False: [ 2 ] ).~;spawn a~run 999~spawn b~run 999~spawn c~run 999~spawn d~run 999~;activity 1~done 1 at 10~activity 2~done 2 at 20~activity 3~done 1 at 35~activity 4~done 2 at 50~;0
a = ( (3 = 3 ifTrue: [ 10 ] False: [ 20 ]) + (3 = 4 ifTrue: [ 1 ] False: [ 2 ]) ).~b = ( true ifTrue: [ | :a | a ] False: [ 2 ] ).~c = ( nil ifTrue: [ 1 ] False: [ 2 ] ).~d = ( true ifTrue: [ false ] False: [ true ] ).~;spawn a~run 999~\
spawn b~run 999~spawn c~run 999~spawn d~run 999~;activity 1~done 12 at 33~activity 2~error notUnderstood at 38 line 2:54~activity 3~error notUnderstood at 41 line 12:11~activity 4~done false at 51~;0
a = ( (true ifTrue: [ false ] False: [ true ]) ifTrue: [ 1 ] False: [ [ 3 ] value ] ).~b = ( | b | b: [ | :x | x < 3 ifTrue: [ x ] False: [ 3 ] ]. (b value: 2) + (b value: 9) ).~;spawn a~run 999~spawn b~run 999~;activity 1~done 3 at 21~activity 2~done 5 at 65~;0";

// Stops in blocks, and activities with blocks that take turns.
const RUNS: &str = "\
main = ( [ | :a | a ] value: 4 ).~;spawn main~run 0~step~step~step~step~step~step~step~;activity 1~stop at 0 line 10:10~stop at 1 line 10:30~stop at 2 line 10:23~stop at 3 line 10:19~stop at 4 line 10:21~stop at 5 line 10:32~done 4 at 6~refused ended~;0
f = ( [ ^ 3 ] value. 4 ).~main = ( f ).~;spawn main~step~step~step~step~step~step~step~;activity 1~stop at 1 line 10:7~stop at 2 line 10:15~stop at 3 line 10:11~stop at 4 line 10:9~stop at 5 line 11:12~done 3 at 6~refused ended~;0
main = ( | s <- 1 | [ s: 2 ] value. s ).~;spawn main~run 2~run 1~run 1~run 1~run 1~run 1~run 1~;activity 1~stop at 2 line 10:26~stop at 3 line 10:23~stop at 4 line 10:28~stop at 5 line 10:35~stop at 6 line 10:37~stop at 7 line 10:39~done 2 at 8~;0
main = ( [ 5 ] ).~;spawn main~run 0~run 1~run 1~run 1~;activity 1~stop at 0 line 10:10~stop at 1 line 10:16~done [12@-] at 2~refused ended~;0
main = ( [ ] value ).~;spawn main~run 2~step~step~step~;activity 1~stop at 2 line 10:12~stop at 3 line 10:12~stop at 4 line 10:20~done nil at 5~;0
loop = ( | i <- 0 | [ i: i + 1. _Restart ] value ).~main = ( loop ).~;spawn main~run 3~run 9~run 9~run 1~continue 100~interrupt 9~;activity 1~stop at 3 line 10:26~stop at 12 line 10:26~stop at 21 line 10:26~stop at 22 line 10:30~stop at 100 line 10:31~stop at 109 line 10:31~;0
main = ( | i <- 0. s <- 0 | [ i < 100000 ] whileTrue: [ s: s + 3. i: i + 1 ]. s ).~;spawn main~run 5000~step~interrupt 10~continue 6000~;activity 1~stop at 5000 line 4:46~stop at 5001 line 4:57~stop at 5011 line 10:33~stop at 6000 line 2:54~;0
m = ( [ 3 ] value ).~main = ( [ | :a | a + 1 ] value: 4 ).~;spawn m~spawn main~run 3~switch 1~run 2~switch 2~run 99~switch 1~run 99~;activity 1~activity 2~stop at 3 line 11:19~activity 1~stop at 5 line 10:9~activity 2~done 5 at 13~activity 1~done 3 at 16~;0
c <- 0.~m = ( | i <- 0 | [ i < 3 ] whileTrue: [ i: i + 1. c: c + i ]. c ).~;spawn m~run 20~spawn m~run 20~switch 1~run 999~switch 2~run 999~;activity 1~stop at 20 line 11:46~activity 2~stop at 40 line 11:46~activity 1~done 6 at 146~activity 2~done 12 at 252~;0
c <- 0.~f = ( [ c: c + 1. ^ c ] value. 9 ).~m = ( f + f ).~;spawn m~run 6~spawn m~run 8~spawn m~run 10~spawn m~run 999~switch 2~run 999~switch 1~run 999~switch 3~run 999~;activity 1~stop at 6 line 4:55~activity 2~stop at 14 line 4:57~activity 3~stop at 24 line 11:17~activity 4~done 5 at 55~activity 2~done 3 at 78~activity 1~done 3 at 103~activity 3~done 5 at 124~;0
b <- nil.~m = ( b: [ | :x | x + 1 ]. b value: (b value: 5) ).~main = ( 1. b value: 3 ).~;spawn m~run 4~spawn main~run 9~switch 1~run 999~spawn m~run 999~;activity 1~stop at 4 line 11:38~activity 2~error nonLifoBlock at 8 line 12:15~activity 1~done 7 at 27~activity 3~done 7 at 50~;0
m = ( [ 3 ] ).~main = ( 3 ).~;spawn m~run 1~spawn main~run 9~switch 1~run 9~run 9~;activity 1~stop at 1 line 10:13~activity 2~done 3 at 3~activity 1~done [12@-] at 4~refused ended~;0
down: n Do: b = ( n = 0 ifTrue: [ b value ] False: [ down: n - 1 Do: b ] ).~f = ( down: 12 Do: [ ^ 42 ]. 1 ).~main = ( f + 1 ).~;spawn main~run 100~spawn main~run 150~switch 1~run 30~switch 2~run 999~switch 1~run 999~;activity 1~stop at 100 line 10:23~activity 2~stop at 250 line 10:62~activity 1~stop at 280 line 10:64~activity 2~done 43 at 383~activity 1~done 43 at 506~;0";

#[test]
fn answers_blocks(rt: HostRuntime) -> Result<(), Fail> {
    for row in VALUES.split('\n') {
        assert!(rt; agrees(rt.alloc(), row)?, "{row}");
    }
    Ok(())
}

#[test]
fn reads_locals_of_bodies_around(rt: HostRuntime) -> Result<(), Fail> {
    for row in LOCALS.split('\n') {
        assert!(rt; agrees(rt.alloc(), row)?, "{row}");
    }
    Ok(())
}

#[test]
fn returns_from_blocks(rt: HostRuntime) -> Result<(), Fail> {
    for row in RETURNS.split('\n') {
        assert!(rt; agrees(rt.alloc(), row)?, "{row}");
    }
    Ok(())
}

#[test]
fn resends_in_blocks(rt: HostRuntime) -> Result<(), Fail> {
    for row in RESENDS.split('\n') {
        assert!(rt; agrees(rt.alloc(), row)?, "{row}");
    }
    Ok(())
}

#[test]
fn ends_with_errors_of_blocks(rt: HostRuntime) -> Result<(), Fail> {
    for row in ERRORS.split('\n') {
        assert!(rt; agrees(rt.alloc(), row)?, "{row}");
    }
    Ok(())
}

#[test]
fn asks_true_and_false(rt: HostRuntime) -> Result<(), Fail> {
    for row in TRUTHS.split('\n') {
        assert!(rt; agrees(rt.alloc(), row)?, "{row}");
    }
    Ok(())
}

#[test]
fn stops_in_blocks(rt: HostRuntime) -> Result<(), Fail> {
    for row in RUNS.split('\n') {
        assert!(rt; agrees(rt.alloc(), row)?, "{row}");
    }
    Ok(())
}
