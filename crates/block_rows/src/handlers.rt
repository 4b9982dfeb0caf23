// Worlds whose primitives fail and have a handler. The tables are as those of `harness`.

use crate::harness::agrees;
use std::test::Fail;

// What a handler gets and answers: a block, an object, a string, one that is gone, one with too few arguments; errors in a handler.
const FAILURES: &str = "\
make = ( [ | :e. :p | 3 ] ).~main = ( 3 _IntMul: nil IfFail: make ).~;spawn main~run 10000000~;activity 1~error nonLifoBlock at 5 line 11:12~;0
value: e With: p = ( e print. p print. 12 ).~main = ( 3 _IntMul: nil IfFail: self ).~;spawn main~run 10000000~;activity 1~out badTypeError~out _IntMul:~done 12 at 17~;0
value: e With: p = ( 12 ).~main = ( 3 _IntMul: nil IfFail: 'a' ).~;spawn main~run 10000000~;activity 1~done 12 at 7~;0
f: a = ( a _IntDiv: 0 IfFail: [ | :e. :p | ^ 5 ]. 6 ).~main = ( 1 + (f: 3) ).~;spawn main~run 10000000~;activity 1~done 6 at 14~;0
main = ( 1 + (3 _IntMod: 0 IfFail: [ | :e. :p | 10 ]) ).~;spawn main~run 6~step~step~step~step~step~;activity 1~stop at 6 line 10:52~stop at 7 line 10:12~stop at 8 line 4:55~stop at 9 line 4:46~stop at 10 line 4:57~stop at 11 line 10:55~;0
v = ( 65536 _VectorNew ).~w = ( v. v. v. v. v. v. v. v ).~fill: n = ( w. w. w. w. w. w. w. v. v. v. v. v. v. v. n _VectorNew ).~h = ( 1 _VectorNewIfFail: [ | :e. :p | 3 ] ).~main = ( fill: 65336. h ).~;spawn main~run 10000000~;activity 1~error storeFull at 338 line 13:9~;0
v = ( 65536 _VectorNew ).~w = ( v. v. v. v. v. v. v. v ).~fill: n = ( w. w. w. w. w. w. w. v. v. v. v. v. v. v. n _VectorNew ).~h = ( 65537 _VectorNewIfFail: [ | :e. :p | 3 ] ).~main = ( fill: 65336. h ).~;spawn main~run 10000000~;activity 1~done 3 at 343~;0
a = ( 536870911 _IntAdd: 1 IfFail: [ | :e. :p | e ] ).~b = ( 536870911 _IntAdd: 1 IfFail: [ | :e. :p | p ] ).~c = ( 536870911 _IntAdd: 1 IfFail: [ | :e. :p | e print. p print. 0 ] ).~\
d = ( 1 _IntDiv: 0 IfFail: [ | :e. :p | e print. p print. ^ 8 ]. 9 ).~;spawn a~run 999~spawn b~run 999~spawn c~run 999~spawn d~run 999~;activity 1~done #9 at 7~activity 2~done #14 at 14~activity 3~out overflowError~out _IntAdd:~\
done 0 at 31~activity 4~out divisionByZeroError~out _IntDiv:~done 8 at 47~;0
a = ( 3 _Zork: 4 IfFail: [ | :e. :p | e print. p print. 0 ] ).~b = ( [ 3 ] _CloneIfFail: [ | :e. :p | e print. p print. 0 ] ).~c = ( 3 _CloneIfFail: [ | :e. :p | 0 ] ).~d = ( 3 _CloneIfFail: 4 IfFail: [ | :e. :p | e print. p print. 0 ] ).~;\
spawn a~run 999~spawn b~run 999~spawn c~run 999~spawn d~run 999~;activity 1~out primitiveNotDefined~out undefined~done 0 at 17~activity 2~out badTypeError~out _Clone~done 0 at 33~activity 3~done 3 at 37~activity 4~out primitiveNotDefined~\
out undefined~done 0 at 54~;0
a = ( _IfFail: [ | :e. :p | 0 ] ).~b = ( 536870911 _IntAdd: 1 IfFail: 7 ).~c = ( nil _SizeIfFail: [ 3 ] ).~d = ( nil _SizeIfFail: [ | :e. :p | 3 ] ).~;spawn a~run 999~spawn b~run 999~spawn c~run 999~spawn d~run 999~;activity 1~error primitiveNotDefined at 1 line 10:7~activity 2~error notUnderstood at 4 line 11:17~activity 3~error notUnderstood at 6 line 12:11~activity 4~done 3 at 12~;0
a = ( 3 _VectorNewIfFail: [ | :e. :p | 3 ] ).~b = ( -1 _VectorNewIfFail: [ | :e. :p | e print. p print. 3 ] ).~c = ( (3 _VectorNew) _At: 3 IfFail: [ | :e. :p | e print. p print. 3 ] ).~\
d = ( (3 _VectorNew) _At: 3 Put: 4 IfFail: [ | :e. :p | e print. p print. 3 ] ).~;spawn a~run 999~spawn b~run 999~spawn c~run 999~spawn d~run 999~;activity 1~done #34 at 4~activity 2~out badSizeError~out _VectorNew~done 3 at 20~activity 3~\
out badIndexError~out _At:~done 3 at 38~activity 4~out badIndexError~out _At:Put:~done 3 at 57~;0";

// Handlers of primitives that don't fail, and those that answer nothing.
const UNUSED: &str = "\
main = ( 3 _IntAdd: 4 IfFail: [ | :e. :p | 9 ] ).~;spawn main~run 10000000~;activity 1~done 7 at 5~;0
main = ( 536870911 _IntAdd: 1 IfFail: 0 ).~;spawn main~run 10000000~;activity 1~error notUnderstood at 3 line 10:20~;0
main = ( 3 _IntAdd: nil IfFail: 0 ).~;spawn main~run 10000000~;activity 1~error notUnderstood at 3 line 10:12~;0";

#[test]
fn hands_failures_over(rt: HostRuntime) -> Result<(), Fail> {
    for row in FAILURES.split('\n') {
        assert!(rt; agrees(rt.alloc(), row)?, "{row}");
    }
    Ok(())
}

#[test]
fn leaves_handlers_alone(rt: HostRuntime) -> Result<(), Fail> {
    for row in UNUSED.split('\n') {
        assert!(rt; agrees(rt.alloc(), row)?, "{row}");
    }
    Ok(())
}
