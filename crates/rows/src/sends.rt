// Worlds whose methods send, resend and assign. The tables are as those of `tests`.

use crate::tests::agrees;
use std::test::Fail;

// Steps one by one, and calls within calls.
const STEPS: &str = "\
main = ( 3 _IntAdd: 4 ).~;spawn main~run 0~run 1~run 1~run 1~run 1~run 1~;activity 1~stop at 0 line 10:10~stop at 1 line 10:21~stop at 2 line 10:12~stop at 3 line 10:23~done 7 at 4~refused ended~;0
main = ( 3 + 4 - 5 ).~;spawn main~run 10000000~;world refused BadSyntax at 10:16~;2
main = ( 3 + 4 + 5 ).~;spawn main~run 10000000~;activity 1~done 12 at 12~;0
a = ( | x = 1 | ).~b = ( | p* = a | ).~c = ( | p* = a | ).~d = ( | p* = b. q* = c | ).~main = ( d x ).~;spawn main~run 10000000~;activity 1~done 1 at 3~;0
a = ( | x = 1 | ).~b = ( | p* = a | ).~c = ( | p* = a. x = 2 | ).~d = ( | p* = b. q* = c | ).~main = ( d x ).~;spawn main~run 10000000~;activity 1~error ambiguous at 1 line 14:12~;0
up* = lobby.~main = ( zork ).~;spawn main~run 10000000~;activity 1~error notUnderstood at 0 line 11:10~;0
f = ( f ).~main = ( f ).~;spawn main~run 9999~;activity 1~error stackOverflow at 4095 line 10:7~;0
c8 = ( 5 ).~c7 = ( c8 ).~c6 = ( c7 ).~c5 = ( c6 ).~c4 = ( c5 ).~c3 = ( c4 ).~c2 = ( c3 ).~c1 = ( c2 ).~main = ( c1 ).~;spawn main~run 9~run 9~;activity 1~stop at 9 line 10:10~done 5 at 18~;0
c20 = ( 5 ).~c19 = ( c20 ).~c18 = ( c19 ).~c17 = ( c18 ).~c16 = ( c17 ).~c15 = ( c16 ).~c14 = ( c15 ).~c13 = ( c14 ).~c12 = ( c13 ).~c11 = ( c12 ).~c10 = ( c11 ).~c9 = ( c10 ).~c8 = ( c9 ).~c7 = ( c8 ).~c6 = ( c7 ).~c5 = ( c6 ).~c4 = ( c5 ).~c3 = ( c4 ).~c2 = ( c3 ).~c1 = ( c2 ).~main = ( c1 ).~;spawn main~run 21~run 100~;activity 1~stop at 21 line 10:11~done 5 at 42~;0";

// Values of methods, of statements and of locals.
const CALLS: &str = "\
f = ( 1 + 1 ).~main = ( f + f ).~;spawn main~run 2~run 0~run 100~;activity 1~stop at 2 line 10:11~stop at 2 line 10:11~done 4 at 21~;0
main = ( 3 + 4 + 5 ).~;spawn main~run 3~run 1~run 1~run 1~run 1~run 100~;activity 1~stop at 3 line 4:55~stop at 4 line 4:46~stop at 5 line 4:57~stop at 6 line 10:18~stop at 7 line 10:16~done 12 at 12~;0
main = ( 9 - 4 - 3 ).~;spawn main~run 10000000~;activity 1~done 2 at 12~;0
f = ( ^ 5 ).~main = ( f + 1 ).~;spawn main~run 10000000~;activity 1~done 6 at 9~;0
main = ( ^ 3 ).~;spawn main~run 1~run 1~;activity 1~stop at 1 line 10:10~done 3 at 2~;0
main = ( 1. 2. 3 ).~;spawn main~run 1~run 99~;activity 1~stop at 1 line 10:11~done 3 at 6~;0
twice = ( self + self ).~main = ( 4 twice twice ).~;spawn main~run 10000000~;activity 1~done 16 at 18~;0
main = ( self ).~;spawn main~run 10000000~;activity 1~done lobby at 2~;0
c9 = ( 1 ).~c8 = ( 1 + c9 ).~c7 = ( 1 + c8 ).~c6 = ( 1 + c7 ).~c5 = ( 1 + c6 ).~c4 = ( 1 + c5 ).~c3 = ( 1 + c4 ).~c2 = ( 1 + c3 ).~c1 = ( 1 + c2 ).~main = ( 1 + c1 ).~;spawn main~run 19~run 1000~;activity 1~stop at 19 line 10:10~done 10 at 65~;0
main = ( | i <- 3. k = 5 | i: i + k. i ).~;spawn main~run 10000000~;activity 1~done 8 at 10~;0
main = ( | i <- 3 | i: 4 ).~;spawn main~run 10000000~;activity 1~done lobby at 3~;0
main = ( | i | i ).~;spawn main~run 10000000~;activity 1~done nil at 2~;0
x <- 0.~main = ( x: x + 1. _Restart ).~;spawn main~run 16~run 6~;activity 1~stop at 16 line 11:18~stop at 22 line 4:46~;0
main = ( 3 ).~;spawn main~run 1~run 1~;activity 1~stop at 1 line 10:12~done 3 at 2~;0";

// What a message meets: own slots, those of parents, none or two.
const LOOKUPS: &str = "\
x = 3.~main = ( x ).~;spawn main~run 10000000~;activity 1~done 3 at 2~;0
o = ( | x = 3. p* = lobby | ).~main = ( o x ).~;spawn main~run 10000000~;activity 1~done 3 at 3~;0
o = ( | p* = lobby | ).~main = ( o p ).~;spawn main~run 10000000~;activity 1~done lobby at 3~;0
o = ( | x | ).~main = ( o x ).~;spawn main~run 10000000~;activity 1~done nil at 3~;0
main = ( true ).~;spawn main~run 10000000~;activity 1~done true at 2~;0
o = ().~main = ( o ).~;spawn main~run 10000000~;activity 1~done #8 at 2~;0
main = ( 'ab' ).~;spawn main~run 10000000~;activity 1~done #8 at 2~;0
o = ( | x = 1 | ).~b = ( | p* = o | ).~c = ( | q* = b | ).~main = ( c x ).~;spawn main~run 10000000~;activity 1~done 1 at 3~;0
a = ( | x = 1 | ).~b = ( | p* = a. x = 2 | ).~main = ( b x ).~;spawn main~run 10000000~;activity 1~done 2 at 3~;0
a = ( | x = 1 | ).~b = ( | x = 2 | ).~c = ( | p* = a. q* = b | ).~main = ( c x ).~;spawn main~run 10000000~;activity 1~error ambiguous at 1 line 13:12~;0
a = ( | x = 1 | ).~b = ( | x = 2 | ).~c = ( | p* = a. q* = b. x = 3 | ).~main = ( c x ).~;spawn main~run 10000000~;activity 1~done 3 at 3~;0
a = ( | x = 1 | ).~b = ( | p* = a. x = 2 | ).~c = ( | p* = a. q* = b | ).~main = ( c x ).~;spawn main~run 10000000~;activity 1~error ambiguous at 1 line 13:12~;0
a = ( | x = 1 | ).~b = ( | x = 2 | ).~c = ( | x = 3 | ).~d = ( | p* = a. q* = b. r* = c | ).~main = ( 7. d x ).~;spawn main~run 10000000~;activity 1~error ambiguous at 3 line 14:15~;0
a = ( | x = 1 | ).~c = ( | p* = a. q* = a | ).~main = ( c x ).~;spawn main~run 10000000~;activity 1~done 1 at 3~;0
a = ( | p* = lobby. x = 5 | ).~q* = a.~main = ( x ).~;spawn main~run 10000000~;activity 1~done 5 at 2~;0
a = ( | p* = lobby | ).~q* = a.~main = ( a x ).~;spawn main~run 10000000~;activity 1~error notUnderstood at 1 line 12:12~;0
o = ( | x = 1 | ).~main = ( o y ).~;spawn main~run 10000000~;activity 1~error notUnderstood at 1 line 11:12~;0
o = ().~main = ( o main ).~;spawn main~run 10000000~;activity 1~error notUnderstood at 1 line 11:12~;0
x = 9.~main = ( 3 x ).~;spawn main~run 10000000~;activity 1~done 9 at 3~;0
x = 9.~main = ( 'ab' x ).~;spawn main~run 10000000~;activity 1~done 9 at 3~;0
a = ( | get = ( x ). x = 1 | ).~b = ( | p* = a. x = 2 | ).~main = ( b get ).~;spawn main~run 10000000~;activity 1~done 2 at 5~;0
a = ( | get = ( self x ). x = 1 | ).~b = ( | p* = a. x = 2 | ).~main = ( b get ).~;spawn main~run 10000000~;activity 1~done 2 at 6~;0
x = 1.~get = ( | x = 5 | x ).~main = ( get ).~;spawn main~run 10000000~;activity 1~done 5 at 4~;0
x = 1.~get = ( | x = 5 | self x ).~main = ( get ).~;spawn main~run 10000000~;activity 1~done 1 at 5~;0";

// Resends, of which some name the parent.
const RESENDS: &str = "\
t = ( | who = ( 1 ) | ).~u = ( | parent* = t. who = ( 2 ). ask = ( resend.who ) | ).~v = ( | parent* = u. who = ( 3 ) | ).~main = ( v ask ).~;spawn main~run 10000000~;activity 1~done 1 at 7~;0
t = ( | who = ( tag ) | ).~u = ( | parent* = t. who = ( resend.who ) | ).~v = ( | parent* = u. tag = 4 | ).~main = ( v who ).~;spawn main~run 10000000~;activity 1~done 4 at 7~;0
a = ( | x = 1 | ).~b = ( | x = 2 | ).~c = ( | l* = a. r* = b. x = ( l.x + r.x ) | ).~main = ( c x ).~;spawn main~run 10000000~;activity 1~done 3 at 10~;0
a = ( | x = 1 | ).~b = ( | x = 2 | ).~c = ( | l* = a. r* = b. x = ( resend.x ) | ).~main = ( c x ).~;spawn main~run 10000000~;activity 1~error ambiguous at 2 line 12:31~;0
c = ( | x = ( resend.x ) | ).~main = ( c x ).~;spawn main~run 10000000~;activity 1~error notUnderstood at 2 line 10:15~;0
x = ( resend.x ).~main = ( x ).~;spawn main~run 10000000~;activity 1~error notUnderstood at 1 line 10:7~;0
a = ( | x = 1 | ).~c = ( | l* = a. x = ( r.x ) | ).~main = ( c x ).~;spawn main~run 10000000~;activity 1~error notUnderstood at 2 line 11:23~;0
a = ( | x = 1 | ).~c = ( | l = a. x = ( l.x ) | ).~main = ( c x ).~;spawn main~run 10000000~;activity 1~error notUnderstood at 2 line 11:22~;0
a = ( | x = 1 | ).~c = ( | l* = a. y = ( l.y ) | ).~main = ( c y ).~;spawn main~run 10000000~;activity 1~error notUnderstood at 2 line 11:23~;0
a = ( | + n = ( n ) | ).~b = ( | p* = a. + n = ( resend.+ n ) | ).~main = ( b + 7 ).~;spawn main~run 10000000~;activity 1~done 7 at 9~;0
a = ( | p* = lobby. at: i Put: v = ( i - v ) | ).~b = ( | p* = a. at: i Put: v = ( resend.at: v Put: i ) | ).~main = ( b at: 9 Put: 4 ).~;spawn main~run 10000000~;activity 1~done -5 at 16~;0
a = ( | at: i Put: v = ( i - v ) | ).~b = ( | p* = a. at: i Put: v = ( p.at: i Put: v ) | ).~main = ( b at: 9 Put: 4 ).~;spawn main~run 10000000~;activity 1~done 5 at 16~;0
a = ( | x <- 1 | ).~b = ( | p* = a. x: v = ( resend.x: v + 1 ) | ).~main = ( b x: 6. b x ).~;spawn main~run 10000000~;activity 1~done 7 at 15~;0";

// Assignment slots: the holder has the value, the receiver is the answer.
const STORES: &str = "\
o = ( | x <- 0 | ).~main = ( o x: 5. o x ).~;spawn main~run 10000000~;activity 1~done 5 at 7~;0
o = ( | x <- 0 | ).~main = ( o x: 5 ).~;spawn main~run 10000000~;activity 1~done #8 at 4~;0
o = ( | x <- 0 | ).~main = ( (o x: 5) x ).~;spawn main~run 10000000~;activity 1~done 5 at 5~;0
o = ( | x | ).~main = ( o x: o. o x ).~;spawn main~run 10000000~;activity 1~done #8 at 7~;0
x <- 1.~main = ( x: x + 1. x ).~;spawn main~run 10000000~;activity 1~done 2 at 10~;0
a = ( | x <- 1 | ).~b = ( | p* = a | ).~main = ( b x: 7. a x ).~;spawn main~run 10000000~;activity 1~done 7 at 7~;0
a = ( | x <- 1 | ).~b = ( | p* = a | ).~main = ( b x: 7 ).~;spawn main~run 10000000~;activity 1~done #9 at 4~;0
a = ( | x <- 1 | ).~b = ( | p* = a. x <- 2 | ).~main = ( b x: 7. a x ).~;spawn main~run 10000000~;activity 1~done 1 at 7~;0
o = ( | x = 1 | ).~main = ( o x: 2 ).~;spawn main~run 10000000~;activity 1~error notUnderstood at 2 line 11:12~;0
o = ( | x <- 1. y <- 2. z <- 3 | ).~main = ( o y: 9. o x + o y + o z ).~;spawn main~run 10000000~;activity 1~done 13 at 19~;0
x <- 1.~f: x = ( x ).~main = ( f: 9 ).~;spawn main~run 10000000~;activity 1~done 9 at 5~;0
x <- 1.~f: x = ( x: 4. x ).~main = ( f: 9 ).~;spawn main~run 10000000~;activity 1~done 9 at 8~;0
x <- 1.~f: x = ( x: 4. x ).~main = ( f: 9. x ).~;spawn main~run 10000000~;activity 1~done 4 at 10~;0";

// Arguments in their order.
const ARGUMENTS: &str = "\
o = ( | a: x B: y = ( x - y ) | ).~main = ( o a: 9 B: 4 ).~;spawn main~run 10000000~;activity 1~done 5 at 12~;0
a: x B: y = ( x - y ).~main = ( a: 9 B: 4 ).~;spawn main~run 10000000~;activity 1~done 5 at 11~;0
o = ( | a: x B: y = ( x - y ) | ).~main = ( o a: (o a: 9 B: 4) B: 1 ).~;spawn main~run 10000000~;activity 1~done 4 at 22~;0
o = ( | a: x B: y = ( x - y ) | ).~main = ( o a: 9 B: (o a: 4 B: 1) ).~;spawn main~run 10000000~;activity 1~done 6 at 22~;0
a: B: = ( | :x. :y | y - x ).~main = ( a: 9 B: 4 ).~;spawn main~run 10000000~;activity 1~done -5 at 11~;0
f: a B: b C: c D: d E: e = ( a - b - c - d - e ).~main = ( f: 100 B: 1 C: 2 D: 3 E: 4 ).~;spawn main~run 10000000~;activity 1~done 90 at 29~;0
f: a B: b C: c D: d E: e = ( e ).~main = ( f: 1 B: 2 C: 3 D: 4 E: 5 ).~;spawn main~run 10000000~;activity 1~done 5 at 9~;0
k <- 0.~n = ( k: k + 1. k ).~a: x B: y = ( x - y ).~main = ( a: n B: n ).~;spawn main~run 10000000~;activity 1~done -1 at 31~;0
a: x = ( | t <- 2. u = 7 | t: t + u. x - t ).~main = ( a: 10 ).~;spawn main~run 10000000~;activity 1~done 1 at 18~;0
main = ( 10 - (3 - 2) ).~;spawn main~run 10000000~;activity 1~done 9 at 12~;0
o = ( | = n = ( n ) | ).~main = ( o = 6 ).~;spawn main~run 10000000~;activity 1~done 6 at 6~;0";

// Errors of messages and primitives, primitives that answer, and handlers that answer nothing.
const ERRORS: &str = "\
main = ( 3 zork ).~;spawn main~run 1~run 1~run 1~;activity 1~stop at 1 line 10:12~error notUnderstood at 1 line 10:12~refused ended~;0
main = ( 3 + zork ).~;spawn main~run 10000000~;activity 1~error notUnderstood at 1 line 10:14~;0
f: n = ( n zork ).~main = ( 1. 2 + (f: 3) ).~;spawn main~run 10000000~run 1~;activity 1~error notUnderstood at 6 line 10:12~refused ended~;0
main = ( true ifTrue: 1 False: 2 ).~;spawn main~run 10000000~;activity 1~error notUnderstood at 5 line 2:54~;0
m = ( [ 3 ] ).~main = ( 7. m ).~;spawn main~run 10000000~run 1~;activity 1~done [12@-] at 6~refused ended~;0
main = ( 3 < 4 ).~;spawn main~run 10000000~;activity 1~done true at 7~;0
main = ( 3 = 4 ).~;spawn main~run 10000000~;activity 1~done false at 7~;0
main = ( 536870911 + 1 ).~;spawn main~run 10000000~;activity 1~error overflowError at 4 line 4:46~;0
main = ( 1 - 536870911 - 1 - 1 ).~;spawn main~run 10000000~;activity 1~done -536870912 at 17~;0
main = ( 7 _IntMul: 2 ).~;spawn main~run 10000000~;activity 1~done 14 at 4~;0
main = ( 3 _IntAdd: nil ).~;spawn main~run 10000000~;activity 1~error badTypeError at 2 line 10:12~;0
main = ( _IntAdd: 3 ).~;spawn main~run 10000000~;activity 1~error badTypeError at 1 line 10:10~;0
main = ( 3 + nil ).~;spawn main~run 10000000~;activity 1~error badTypeError at 4 line 4:46~;0
main = ( 3 _IntPrint ).~;spawn main~run 10000000~;activity 1~out 3~done 3 at 3~;0
main = ( 'ab' print ).~;spawn main~run 10000000~;activity 1~out ab~done #8 at 5~;0
main = ( _Clone ).~;spawn main~run 10000000~;activity 1~done #34 at 2~;0
main = ( 3 _Zork: 4 ).~;spawn main~run 10000000~;activity 1~error primitiveNotDefined at 2 line 10:12~;0
main = ( 536870911 _IntAdd: 1 IfFail: 0 ).~;spawn main~run 10000000~;activity 1~error notUnderstood at 3 line 10:20~;0
main = ( 3 _IntAdd: 4 IfFail: 0 ).~;spawn main~run 10000000~;activity 1~done 7 at 5~;0
main = ( 3 _IntAdd: true ).~;spawn main~run 10000000~;activity 1~error badTypeError at 2 line 10:12~;0
main = ( true _IntAdd: 3 ).~;spawn main~run 2~run 1~run 1~;activity 1~stop at 2 line 10:15~error badTypeError at 2 line 10:15~refused ended~;0
main = ( 'ab' _IntSub: 1 ).~;spawn main~run 10000000~;activity 1~error badTypeError at 2 line 10:15~;0
main = ( nil + 3 ).~;spawn main~run 10000000~;activity 1~error notUnderstood at 2 line 10:14~;0
main = ( -536870912 - 1 ).~;spawn main~run 10000000~run 1~;activity 1~error overflowError at 4 line 4:68~refused ended~;0
main = ( 3 _IntAdd: nil IfFail: 0 ).~;spawn main~run 10000000~;activity 1~error notUnderstood at 3 line 10:12~;0
main = ( 536870911 + 1 ).~f = ( 7 ).~;spawn main~run 9~run 9~spawn f~run 9~;activity 1~error overflowError at 4 line 4:46~refused ended~activity 2~done 7 at 6~;0";

#[test]
fn does_steps_and_calls(rt: HostRuntime) -> Result<(), Fail> {
    for row in STEPS.split('\n') {
        assert!(rt; agrees(rt.alloc(), row)?, "{row}");
    }
    Ok(())
}

#[test]
fn answers_calls(rt: HostRuntime) -> Result<(), Fail> {
    for row in CALLS.split('\n') {
        assert!(rt; agrees(rt.alloc(), row)?, "{row}");
    }
    Ok(())
}

#[test]
fn looks_slots_up(rt: HostRuntime) -> Result<(), Fail> {
    for row in LOOKUPS.split('\n') {
        assert!(rt; agrees(rt.alloc(), row)?, "{row}");
    }
    Ok(())
}

#[test]
fn resends(rt: HostRuntime) -> Result<(), Fail> {
    for row in RESENDS.split('\n') {
        assert!(rt; agrees(rt.alloc(), row)?, "{row}");
    }
    Ok(())
}

#[test]
fn assigns(rt: HostRuntime) -> Result<(), Fail> {
    for row in STORES.split('\n') {
        assert!(rt; agrees(rt.alloc(), row)?, "{row}");
    }
    Ok(())
}

#[test]
fn hands_arguments_over(rt: HostRuntime) -> Result<(), Fail> {
    for row in ARGUMENTS.split('\n') {
        assert!(rt; agrees(rt.alloc(), row)?, "{row}");
    }
    Ok(())
}

#[test]
fn ends_with_errors(rt: HostRuntime) -> Result<(), Fail> {
    for row in ERRORS.split('\n') {
        assert!(rt; agrees(rt.alloc(), row)?, "{row}");
    }
    Ok(())
}
