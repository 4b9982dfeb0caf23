// The lines of stacks. The tables are as those of `tests`.

use crate::tests::agrees;
use std::test::Fail;

// Activations of methods and of blocks, their arguments and locals, and values that a node hasn't taken yet.
const STACKS: &str = "\
main = ( 3 _IntAdd: 4 ).~;stack~spawn main~stack~run 9~stack~;refused no activity~activity 1~frame 1 main 10:10 self lobby []~done 7 at 4~refused ended~;0
main = ( 3 _IntAdd: 4 ).~;spawn main~run 0~run 1~stack~step~step~step~;\
activity 1~stop at 0 line 10:10~stop at 1 line 10:21~frame 1 main 10:21 self lobby [3]~stop at 2 line 10:12~stop at 3 line 10:23~done 7 at 4~;0
main = ( 3 _IntAdd: 4 ).~;spawn main~run 2~stack~stack~run 9~;activity 1~stop at 2 line 10:12~frame 1 main 10:12 self lobby [3 4]~frame 1 main 10:12 self lobby [3 4]~done 7 at 4~;0
deep = ( [ [ [ ^ 9 ] value ] value ] value. 8 ).~main = ( deep ).~;spawn main~run 8~stack~run 9~;\
activity 1~stop at 8 line 10:16~frame 5 block 10:16 self lobby [9]~frame 4 block 10:22 self lobby []~frame 3 block 10:30 self lobby []~\
frame 2 deep 10:38 self lobby []~frame 1 main 11:10 self lobby []~done 9 at 10~;0
main = ( | i <- 0. s <- 0 | [ i < 100000 ] whileTrue: [ s: s + 3. i: i + 1 ]. s ).~;spawn main~run 5000~stack~step~;\
activity 1~stop at 5000 line 4:46~frame 6 + 4:46 self 142 n=1 [1]~frame 5 block 10:72 self lobby []~frame 4 block 9:36 self [12@1] []~\
frame 3 ifTrue:False: 2:54 self true a=[9@2] b=[10@2] []~frame 2 whileTrue: 9:24 self [12@1] b=[13@1] []~frame 1 main 10:44 self lobby i=142 s=429 []~\
stop at 5001 line 4:57~;0
c8 = ( 5 ).~c7 = ( c8 ).~c6 = ( c7 ).~c5 = ( c6 ).~c4 = ( c5 ).~c3 = ( c4 ).~c2 = ( c3 ).~c1 = ( c2 ).~main = ( c1 ).~;spawn main~run 9~stack~run 9~;\
activity 1~stop at 9 line 10:10~frame 9 c8 10:10 self lobby [5]~frame 8 c7 11:8 self lobby []~frame 7 c6 12:8 self lobby []~frame 6 c5 13:8 self lobby []~\
frame 5 c4 14:8 self lobby []~frame 4 c3 15:8 self lobby []~frame 3 c2 16:8 self lobby []~frame 2 c1 17:8 self lobby []~frame 1 main 18:10 self lobby []~done 5 at 18~;0
traits = ( | parent* = lobby.~point = ( | parent* = lobby. + p = ( | r | r: clone. r x: x + p x. r y: y + p y. r ).~\
clone = ( _Clone ). show = ( x _IntPrint. y _IntPrint ) | ) | ).~point = ( | parent* = traits point. x <- 0. y <- 0 | ).~\
main = ( | p. q | p: point clone. p x: 3. p y: 4. q: p + p. q show ).~;spawn main~run 30~stack~spawn main~run 5~switch 1~run 1000~;\
activity 1~stop at 30 line 11:56~frame 2 + 11:56 self #37 p=#37 r=#38 [#38 6]~frame 1 main 14:56 self lobby p=#37 q=nil []~activity 2~stop at 35 line 14:33~activity 1~\
out 6~out 8~done 8 at 60~;0";

// On until the youngest activation is gone.
const FINISHES: &str = "\
main = ( | i <- 0. s <- 0 | [ i < 100000 ] whileTrue: [ s: s + 3. i: i + 1 ]. s ).~;spawn main~run 5000~step~finish 100~;\
activity 1~stop at 5000 line 4:46~stop at 5001 line 4:57~stop at 5002 line 10:67~;0
main = ( 3 _IntAdd: 4 ).~;finish 5~spawn main~finish 0~finish 2~finish 100~finish 1~;\
refused no activity~activity 1~stop at 0 line 10:10~stop at 2 line 10:12~done 7 at 4~refused ended~;0
c8 = ( 5 ).~c7 = ( c8 ).~c6 = ( c7 ).~c5 = ( c6 ).~c4 = ( c5 ).~c3 = ( c4 ).~c2 = ( c3 ).~c1 = ( c2 ).~main = ( c1 ).~;spawn main~run 9~finish 100~finish 100~run 9~;\
activity 1~stop at 9 line 10:10~stop at 10 line 11:11~stop at 11 line 12:11~done 5 at 18~;0
c8 = ( 5 ).~c7 = ( c8 ).~c6 = ( c7 ).~c5 = ( c6 ).~c4 = ( c5 ).~c3 = ( c4 ).~c2 = ( c3 ).~c1 = ( c2 ).~main = ( c1 ).~;spawn main~run 3~finish 3~finish 100~run 9~;\
activity 1~stop at 3 line 15:8~stop at 6 line 12:8~stop at 12 line 13:11~done 5 at 18~;0
deep = ( [ [ [ ^ 9 ] value ] value ] value. 8 ).~main = ( deep ).~;spawn main~run 8~finish 100~finish 100~;\
activity 1~stop at 8 line 10:16~stop at 9 line 11:15~done 9 at 10~;0";

#[test]
fn shows_stacks(rt: HostRuntime) -> Result<(), Fail> {
    for row in STACKS.split('\n') {
        assert!(rt; agrees(rt.alloc(), row)?, "{row}");
    }
    Ok(())
}

#[test]
fn finishes_activations(rt: HostRuntime) -> Result<(), Fail> {
    for row in FINISHES.split('\n') {
        assert!(rt; agrees(rt.alloc(), row)?, "{row}");
    }
    Ok(())
}
