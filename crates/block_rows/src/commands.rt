// Scripts with `finish` and `stack`. The tables are as those of `harness`.

use crate::harness::agrees;
use std::test::Fail;

// On until the youngest activation is gone.
const FINISHES: &str = "\
main = ( 3 _IntAdd: 4 ).~;finish 3~spawn main~finish 0~finish 3~finish 9~finish 1~;refused no activity~activity 1~stop at 0 line 10:10~stop at 3 line 10:23~done 7 at 4~refused ended~;0
c = ( 5 ).~b = ( c + 1 ).~a = ( b + 1 ).~main = ( a + 1 ).~;spawn main~run 4~stack~finish 1~finish 99~stack~finish 99~finish 99~finish 99~;activity 1~stop at 4 line 10:9~frame 4 c 10:9 self lobby [5]~frame 3 b 11:7 self lobby []~\
frame 2 a 12:7 self lobby []~frame 1 main 13:10 self lobby []~stop at 5 line 11:11~stop at 11 line 12:11~frame 2 a 12:11 self lobby [6]~frame 1 main 13:10 self lobby []~stop at 17 line 13:14~done 8 at 23~refused ended~;0
down: n = ( n = 0 ifTrue: [ 7 ] False: [ 1 + (down: n - 1) ] ).~main = ( down: 3 ).~;spawn main~run 40~finish 1000~stack~finish 1000~finish 1000000000~finish 1~;activity 1~stop at 40 line 10:13~stop at 81 line 10:44~frame 7 block 10:44 self lobby [1 8]~\
frame 6 ifTrue:False: 3:55 self false a=[12@5] b=[13@5] []~frame 5 down: 10:19 self lobby n=2 []~frame 4 block 10:47 self lobby [1]~frame 3 ifTrue:False: 3:55 self false a=[12@2] b=[13@2] []~frame 2 down: 10:19 self lobby n=3 []~\
frame 1 main 11:10 self lobby []~stop at 86 line 3:61~stop at 87 line 10:62~stop at 88 line 10:44~;0
main = ( | i <- 0 | [ i < 10 ] whileTrue: [ i: i + 1 ]. i ).~;spawn main~run 9~finish 5~finish 1000~stack~finish 1000~finish 1000~;activity 1~stop at 9 line 5:19~stop at 10 line 10:30~stop at 11 line 9:32~\
frame 2 whileTrue: 9:32 self [12@1] b=[13@1] [true]~frame 1 main 10:32 self lobby i=0 []~stop at 288 line 10:55~done 10 at 291~;0
f = ( 3 zork ).~main = ( f ).~;spawn main~run 1~finish 9~finish 9~;activity 1~stop at 1 line 10:7~error notUnderstood at 2 line 10:9~refused ended~;0
each: b = ( b value: 1. b value: 2. 3 ).~main = ( each: [ | :x | x = 2 ifTrue: [ ^ 9 ] False: [ 0 ] ]. 8 ).~;spawn main~run 12~stack~finish 1000~stack~finish 1000~finish 1000~;activity 1~stop at 12 line 11:54~\
frame 3 block 11:54 self lobby x=1 [false [14@3]]~frame 2 each: 10:15 self lobby b=[13@1] []~frame 1 main 11:10 self lobby []~stop at 20 line 10:23~frame 2 each: 10:23 self lobby b=[13@1] [0]~frame 1 main 11:10 self lobby []~done 9 at 37~refused ended~;0
f = ( f ).~main = ( f ).~;spawn main~run 3~finish 10~finish 100000~finish 1~;activity 1~stop at 3 line 10:7~stop at 13 line 10:7~error stackOverflow at 4095 line 10:7~refused ended~;0
m = ( 'x' print. 'y' print. 3 ).~main = ( m + m ).~;spawn main~run 1~finish 99~finish 99~finish 99~;activity 1~stop at 1 line 10:7~out x~out y~stop at 13 line 11:14~out x~out y~done 6 at 31~refused ended~;0
m = ( 1. 2. 3 ).~main = ( m ).~;spawn main~spawn main~run 2~switch 1~run 1~finish 2~finish 9~switch 2~finish 9~switch 1~finish 9~;activity 1~activity 2~stop at 2 line 10:8~activity 1~stop at 3 line 10:7~stop at 5 line 10:10~stop at 9 line 11:12~\
activity 2~stop at 14 line 11:12~activity 1~done 3 at 15~;0";

// The activations that are there.
const STACKS: &str = "\
main = ( 3 _IntAdd: 4 ).~;stack~spawn main~stack~run 1~stack~run 9~stack~;refused no activity~activity 1~frame 1 main 10:10 self lobby []~stop at 1 line 10:21~frame 1 main 10:21 self lobby [3]~done 7 at 4~refused ended~;0
f: a With: b = ( | t. u <- 7. v = 'hi' | t: a. t + b ).~main = ( f: 3 With: 4 ).~;spawn main~stack~run 3~stack~run 2~stack~run 1~stack~;activity 1~frame 1 main 11:13 self lobby []~stop at 3 line 10:45~\
frame 2 f:With: 10:45 self lobby a=3 b=4 t=nil u=7 v=#8 []~frame 1 main 11:10 self lobby []~stop at 5 line 10:46~frame 2 f:With: 10:46 self lobby a=3 b=4 t=3 u=7 v=#8 [lobby]~frame 1 main 11:10 self lobby []~stop at 6 line 10:48~\
frame 2 f:With: 10:48 self lobby a=3 b=4 t=3 u=7 v=#8 []~frame 1 main 11:10 self lobby []~;0
o = ( | parent* = lobby. x <- 5. y = ( [ | :z | z + x ] value: 3 ) | ).~main = ( o y ).~;spawn main~run 7~stack~run 99~stack~;activity 1~stop at 7 line 10:51~frame 3 block 10:51 self #8 z=3 [3 5]~frame 2 y 10:57 self #8 []~\
frame 1 main 11:12 self lobby []~done 8 at 14~refused ended~;0
keep <- nil.~make = ( keep: [ 3 ] ).~main = ( make. [ keep value ] value ).~;spawn main~run 3~stack~run 4~stack~run 9~;activity 1~stop at 3 line 11:22~frame 2 make 11:22 self lobby [lobby]~frame 1 main 12:10 self lobby []~stop at 7 line 12:18~\
frame 2 block 12:18 self lobby []~frame 1 main 12:31 self lobby []~error nonLifoBlock at 8 line 12:23~;0
main = ( | v | v: 3 _VectorNew. v _At: 1 Put: 'a b'. v _Size ).~;spawn main~run 2~stack~run 4~stack~run 99~;activity 1~stop at 2 line 10:16~frame 1 main 10:16 self lobby v=nil [#35]~stop at 6 line 10:47~frame 1 main 10:47 self lobby v=#35 [#35 1]~\
done 3 at 12~;0
a = ( 1 + b ).~b = ( 2 + c ).~c = ( 3 ).~main = ( a ).~other = ( [ | :x | x ] value: true ).~;spawn main~run 6~spawn other~run 3~stack~switch 1~stack~switch 2~stack~run 9~stack~switch 1~run 2~stack~;activity 1~stop at 6 line 12:9~activity 2~\
stop at 9 line 14:20~frame 2 block 14:20 self lobby x=true []~frame 1 other 14:24 self lobby []~activity 1~frame 4 c 12:9 self lobby [3]~frame 3 b 11:11 self lobby [2]~frame 2 a 10:11 self lobby [1]~frame 1 main 13:10 self lobby []~activity 2~\
frame 2 block 14:20 self lobby x=true []~frame 1 other 14:24 self lobby []~done true at 12~refused ended~activity 1~stop at 14 line 4:55~frame 4 + 4:55 self 2 n=3 []~frame 3 b 11:9 self lobby []~frame 2 a 10:11 self lobby [1]~\
frame 1 main 13:10 self lobby []~;0
f = ( f ).~main = ( f ).~;spawn main~run 5~stack~;activity 1~stop at 5 line 10:7~frame 6 f 10:7 self lobby []~frame 5 f 10:7 self lobby []~frame 4 f 10:7 self lobby []~frame 3 f 10:7 self lobby []~frame 2 f 10:7 self lobby []~\
frame 1 main 11:10 self lobby []~;0
main = ( 1. nil. true. false. lobby. -5. 'q' ).~;spawn main~step~stack~step~step~stack~step~step~stack~step~step~stack~step~step~stack~step~step~stack~step~step~stack~;activity 1~stop at 1 line 10:11~frame 1 main 10:11 self lobby [1]~stop at 2 line 10:13~\
stop at 3 line 10:16~frame 1 main 10:16 self lobby [nil]~stop at 4 line 10:18~stop at 5 line 10:22~frame 1 main 10:22 self lobby [true]~stop at 6 line 10:24~stop at 7 line 10:29~frame 1 main 10:29 self lobby [false]~stop at 8 line 10:31~\
stop at 9 line 10:36~frame 1 main 10:36 self lobby [lobby]~stop at 10 line 10:38~stop at 11 line 10:40~frame 1 main 10:40 self lobby [-5]~stop at 12 line 10:42~stop at 13 line 10:46~frame 1 main 10:46 self lobby [#8]~;0";

#[test]
fn finishes_activations(rt: HostRuntime) -> Result<(), Fail> {
    for row in FINISHES.split('\n') {
        assert!(rt; agrees(rt.alloc(), row)?, "{row}");
    }
    Ok(())
}

#[test]
fn shows_stacks(rt: HostRuntime) -> Result<(), Fail> {
    for row in STACKS.split('\n') {
        assert!(rt; agrees(rt.alloc(), row)?, "{row}");
    }
    Ok(())
}
