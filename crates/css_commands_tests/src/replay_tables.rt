//! Schedules, and what a replay of each prints.
//!
//! A row is a name after `# `, how the replay ends after `=> `, the schedule, and what is printed after `> `. Lines end
//! with `; ` and ` | ` too. `SHORT` has what is short for the beginnings of schedules and of lines.

/// What is short for what in a table. The wall clock of `SHOWN` is 10 seconds ahead.
#[rattlefmt::skip]
pub const SHORT: [(&str, &str); 15] = [
    ("EXCHANGE", "~; 1000 4800 1000 ask 1000; 1200 5000 1200 take 1 5000; 1400 5200 1400 give 1 5200; \
1600 5400 1600 land 1 1600"),
    ("PROMISE", "FOLLOW; 1000 11000 1000 ask 1000; 1100 11100 1100 take 1 11100; 1200 11200 1200 give 1 11200"),
    ("SHOWN", "~; @ programme dvb://1; @ timeline 1 urn:dvb:css:timeline:pts 1 90000 900000; @ change 10000000000 1; \
@ open cii; @ text cii; @ open ts; @ up ts; @ text ts"),
    ("ALONE", "ONE; 1000 4800 1 1000 ask 1000; 1200 5000 1 1200 take 1 5000; 1400 5200 1 1400 give 1 5200; \
1600 5400 1 1600 land 1 1600"),
    ("BOTH", "css-schedule 2 plain 0 -30 2; companion 1 0 0 urn:dvb:css:timeline:pts -; \
companion 2 0 0 urn:dvb:css:timeline:pts -; 1000 4800 1 1000 ask 1000; 1000 4800 2 7000 ask 7000; \
1200 5000 0 0 take 1 5000; 1400 5200 0 0 give 1 5200"),
    ("SESSIONS", "css-schedule 2 plain 0 -30 2; companion 1 0 0 urn:dvb:css:timeline:pts dvb://; \
companion 2 0 0 urn:dvb:css:timeline:pts -; 0 1000 0 0 programme dvb://1; \
0 1000 2 0 timeline 1 urn:dvb:css:timeline:pts 1 90000 900000; 0 1000 1 0 change 1000 1; 0 1000 1 0 open cii; \
0 1000 2 0 open cii; 0 1000 2 0 open ts; 0 1000 2 0 up ts"),
    ("ANSWERED", "~; @ ask 0; @ take 1 10000000000; @ give 1 10000000000; @ land 1 0"),
    ("ONE", "css-schedule 2 plain 0 -30 1; companion 1 0 0 urn:dvb:css:timeline:pts -"),
    ("FOLLOW", "css-schedule 1 follow 0 -30 0 0 urn:dvb:css:timeline:pts -"),
    ("~", "css-schedule 1 plain 0 -30 0 0 urn:dvb:css:timeline:pts -"),
    ("^", "css-schedule 1 plain 0 -30 0 0 urn:x -"),
    ("@", "0 10000000000 0"),
    ("%", "0 0 0"),
    ("; ", "\n"),
    (" | ", "\n"),
];

/// Schedules of one companion.
pub const FIRST: &str = "\
# a header alone => done | ^
# no line => line 1: form
# no header => line 1: form | 1000 4800 1000 ask 1000
# an empty line => line 2: form | ^

# two spaces => line 3: form | ^; 1000 4800 1000 wall 1000; 1200 5000 1200  wall 1200; 1300 5100 1300 wall 1300
> 2 none NoAnswer
# an answer lands twice, and the first landing tells more => done | EXCHANGE; 1600 5400 1600 wall 1600
1800 5600 1800 land 1 1800; 1800 5600 1800 wall 1800 | > 6 wall 5197 5603 at 5400; 8 wall 5397 5803 at 5600
# a span begins below zero => done | ~; % ask 0; % take 1 0; % give 1 0; % land 1 0; % wall 0 | > 6 wall -3 3 at 0
# what was lost, repeated or reordered changes no truth => done
css-schedule 1 follow 12800 -20 12800 1000 urn:dvb:css:timeline:pts -; 0 5000000000 0 wall 0
1000000 5001000000 1000000 ask 1000000; 2000000 5002000000 2000000 ask 2000000; 3000000 5003000000 3000000 ask 3000000
4000000 5004000000 4000000 take 1 5004000000; 4200000 5004200000 4200000 give 1 5004200000
4400000 5004400000 4400000 take 3 5004400000; 4500000 5004500000 4500000 take 2 5004500000
4600000 5004600000 4600000 give 2 5004600000; 4700000 5004700000 4700000 give 3 5004700000
5000000 5005000000 5000000 land 2 5000000; 5000000 5005000000 5000000 wall 5000000
5500000 5005500000 5500000 land 3 5500000; 6000000 5006000000 6000000 wall 6000000
6500000 5006500000 6500000 land 5 6500000; 6600000 5006600000 6600000 land 5 6600000
7000000 5007000000 7000000 land 4 7000000; 7000000 5007000000 7000000 wall 7000000
1007000000 6007000000 1007000000 wall 1007000000 | > 2 none NoAnswer; 13 wall 5004197044 5008003357 at 5005000000
15 wall 5004896994 5007403257 at 5006000000; 19 wall 5006096894 5008403357 at 5007000000
20 wall 6005996899 6008503362 at 6007000000
# a follow-up of a second take isn't paired with the response of the first => done | PROMISE
1300 11300 1300 take 1 11300; 1400 11400 1400 land 1 1400; 2050 12050 2050 give 2 12050; 2100 12100 2100 land 4 2100
2100 12100 2100 wall 2100 | > 9 wall 12047 12403 at 12100
# a follow-up that lands before its response counts from that => done | PROMISE; 1300 11300 1300 land 2 1300
1400 11400 1400 land 1 1400; 1400 11400 1400 wall 1400 | > 7 wall 11297 11503 at 11400
# a follow-up counts from the landing of its response => done | PROMISE; 1250 11250 1250 land 1 1250
1400 11400 1400 land 2 1400; 1400 11400 1400 wall 1400 | > 7 wall 11347 11503 at 11400
# the response was lost => done | PROMISE; 1300 11300 1300 land 2 1300; 1300 11300 1300 wall 1300
> 6 wall 11197 11403 at 11300
# a request is received twice at one reading: nothing is promised at the second time => done | FOLLOW
1000 11000 1000 ask 1000; 1100 11100 1100 take 1 11100; 1100 11100 1100 take 1 11100; 1200 11200 1200 give 2 11200
1200 11200 1200 give 1 11200; 1300 11300 1300 land 1 1300; 1300 11300 1300 wall 1300 | > 8 wall 11197 11403 at 11300
";

/// What a companion prints of a television with sessions.
pub const TICKS: &str = "\
# an evening: the first response is lost, and the viewer pauses, seeks and goes on => done
css-schedule 1 plain 12800 -20 12800 1000 urn:dvb:css:timeline:pts dvb://; 0 5000000000 0 programme dvb://233a.1004.1044
0 5000000000 0 timeline 1 urn:dvb:css:timeline:pts 1 90000 900000; 0 5000000000 0 change 5000000000 1
0 5000000000 0 open cii; 0 5000000000 0 text cii; 0 5000000000 0 open ts; 0 5000000000 0 up ts; 0 5000000000 0 text ts
1000000 5001000000 1000000 print 1000000; 2000000 5002000000 2000000 ask 2000000
3000000 5003000000 3000000 take 1 5003000000; 3100000 5003100000 3100000 give 1 5003100000
12000000 5012000000 12000000 ask 12000000; 13000000 5013000000 13000000 take 2 5013000000
13200000 5013200000 13200000 give 2 5013200000; 14000000 5014000000 14000000 land 2 14000000
14000000 5014000000 14000000 print 14000000; 20000000 5020000000 20000000 speed 5020000000 0
21000000 5021000000 21000000 print 21000000; 21000000 5021000000 21000000 text ts
22000000 5022000000 22000000 print 22000000; 23000000 5023000000 23000000 seek 5023000000 60000000000
24000000 5024000000 24000000 speed 5024000000 1; 24000000 5024000000 24000000 text ts
24000000 5024000000 24000000 text ts; 30000000 5030000000 30000000 ask 30000000
30500000 5030500000 30500000 take 3 5030500000; 30600000 5030600000 30600000 give 3 5030600000
31000000 5031000000 31000000 land 3 31000000; 31000000 5031000000 31000000 print 31000000
32000000 5032000000 32000000 close ts; 32000000 5032000000 32000000 print 32000000
> 10 none NoAnswer; 18 ticks 901187 901350 at 901260; 20 ticks 901817 901980 at 901890
22 ticks 901800 901800 at 901800; 31 ticks 6300593 6300675 at 6300630; 33 none SessionClosed
# speed -2: the lesser tick comes first => done | SHOWN; @ speed 10000000000 -2; @ text ts
499988895 10499988895 499988895 ask 499988895; 500000003 10500000003 500000003 take 1 10500000003
500000003 10500000003 500000003 give 1 10500000003; 500011111 10500011111 500011111 land 1 500011111
500011111 10500011111 500011111 print 500011111 | > 16 ticks 809996 810000 at 809998
# a presentation delays what is shown, once the new control timestamp has come => done | SHOWN
@ present 900000 10040000000 900000 plusinfinity; @ up ts; @ text ts; 100 10000000100 100 ask 100
200 10000000200 200 take 1 10000000200; 300 10000000300 300 give 1 10000000300; 400 10000000400 400 land 1 400
400 10000000400 400 print 400 | > 17 ticks 896400 896400 at 896400
# before, the companion goes by the old one => done | SHOWN; @ present 900000 10040000000 900000 plusinfinity; @ up ts
100 10000000100 100 ask 100; 200 10000000200 200 take 1 10000000200; 300 10000000300 300 give 1 10000000300
400 10000000400 400 land 1 400; 400 10000000400 400 print 400 | > 16 ticks 900000 900000 at 900000
# no control timestamp came => done | ANSWERED; @ open ts; @ print 0 | > 7 none NoTimestamp
# the television shows nothing => done | ANSWERED; @ open ts; @ up ts; @ text ts; @ print 0 | > 9 none Unavailable
# the rate of another timeline is known once the state of the content came => done
css-schedule 1 plain 0 -30 0 0 urn:x:1 dvb://; @ ask 0; @ take 1 10000000000; @ give 1 10000000000; @ land 1 0
@ programme dvb://1; @ timeline 1 urn:x:1 1 50 0; @ change 10000000000 1; @ open cii; @ open ts; @ up ts; @ text ts
@ print 0; @ text cii; @ print 0 | > 13 none NoRate; 15 ticks -1 0 at 0
# the content is another => done | css-schedule 1 plain 0 -30 0 0 urn:x:1 dvb://; @ ask 0; @ take 1 10000000000
@ give 1 10000000000; @ land 1 0; @ programme http://1; @ timeline 1 urn:x:1 1 50 0; @ change 10000000000 1; @ open cii
@ text cii; @ open ts; @ up ts; @ text ts; @ print 0 | > 14 none Unavailable
";

/// Schedules of version 2: several companions, and sleeps. The clocks of two are 6,000 ns apart.
pub const SECOND: &str = "\
# each has its own sessions, its own timeline and its own ticks => done | css-schedule 2 plain 0 -30 2
companion 1 0 0 urn:x:1 -; companion 2 0 0 urn:x:2 -; @ 0 programme dvb://1; @ 0 timeline 1 urn:x:1 1 1000 0
@ 0 timeline 1 urn:x:2 1 50 0; @ 0 change 10000000000 1; 0 10000000000 1 0 open cii; 0 10000000000 1 0 text cii
0 10000000000 1 0 open ts; 0 10000000000 1 0 up ts; 0 10000000000 1 0 text ts; 0 10000000000 2 0 open ts
0 10000000000 2 0 up ts; 0 10000000000 2 0 text ts; 0 10000000000 1 0 ask 0; 0 10000000000 2 0 ask 0
@ 0 take 1 10000000000; @ 0 give 1 10000000000; @ 0 take 2 10000000000; @ 0 give 2 10000000000
0 10000000000 1 0 land 1 0; 0 10000000000 2 0 land 2 0; 1000000000 11000000000 1 1000000000 print 1000000000
1000000000 11000000000 2 1000000000 print 1000000000; 1000000000 11000000000 2 1000000000 open cii
1000000000 11000000000 2 1000000000 text cii; 1000000000 11000000000 2 1000000000 print 1000000000
1000000000 11000000000 1 1000000000 close cii; 1000000000 11000000000 1 1000000000 print 1000000000
> 24 ticks 999 1000 at 1000; 25 none NoRate; 28 ticks 49 50 at 50; 30 ticks 999 1000 at 1000
# a sleep forgets the answers, and a later answer to a request before it isn't taken => done | ALONE
1600 5400 1 1600 wall 1600; 1600 5400 1 1600 sleep; 1700 5500 1 1700 wall 1700; 1700 5500 1 1700 land 1 1700
1700 5500 1 1700 wall 1700 | > 7 wall 5197 5603 at 5400; 9 none NoAnswer; 11 none NoAnswer
# over a sleep the clock stands still => done | ALONE; 2000 5800 1 1600 sleep; 2100 5900 1 1700 wall 1700
> 8 none NoAnswer
# after two sleeps the reading is above the last one => done | ALONE; 1600 5400 1 1600 sleep; 1600 5400 1 1600 sleep
1601 5401 1 1601 ask 1601; 1601 5401 1 1601 wall 1601 | > 10 none NoAnswer
# each companion has its own answers => done | BOTH; 1600 5400 1 1600 land 1 1600; 1600 5400 2 7600 wall 7600
1600 5400 1 1600 wall 1600 | > 9 none NoAnswer; 10 wall 5197 5603 at 5400
# the requests of both have one row of numbers => done | BOTH; 1600 5400 0 0 take 2 5400; 1700 5500 1 1700 give 2 5500
1800 5600 2 7800 land 2 7800; 1800 5600 2 7800 wall 7800; 1800 5600 1 1800 wall 1800
> 11 wall 5497 6203 at 5600; 12 none NoAnswer
# a sleep forgets neither the control timestamp nor what is in flight => done | SESSIONS; 0 1000 2 0 text ts
0 1000 2 0 text cii; 0 1000 2 0 sleep; 1000 2000 2 1000 ask 1000; 1200 2200 0 0 take 1 2200; 1200 2200 0 0 give 1 2200
1400 2400 2 1400 land 1 1400; 1400 2400 2 1400 print 1400; 1400 2400 1 1400 print 1400
> 18 ticks 900000 900000 at 900000; 19 none NoAnswer
# the companions are missing => line 2: form | css-schedule 2 plain 0 -30 1
# the second companion is missing => line 3: form | css-schedule 2 plain 0 -30 2; companion 1 0 0 urn:x -
# a line in place of the second companion => line 3: form | css-schedule 2 plain 0 -30 2; companion 1 0 0 urn:x -
1000 4800 1 1000 ask 1000
# companions in the wrong order => line 2: form | css-schedule 2 plain 0 -30 2; companion 2 0 0 urn:x -
# more companions than line 1 says => line 3: form | ONE; companion 2 0 0 urn:x -
";

/// Schedules whose last line is refused. True time is tested before the wall clock, the wall clock before the
/// companion's, that before the precision, that before the order and before what isn't there, and the order before what
/// isn't there. The excess of a drift is told in 1/256,000,000 ns, and any other in ns.
pub const REFUSED: &str = "\
# => line 3: broken with line 2 by 1 | ~; 1000 4800 1000 ask 1000; 999 9000 9000 take 9 1
# => line 3: broken with line 2 by 22784000000 | ~; 1000 4800 1000 ask 1000; 1010 4900 9000 take 9 1
# => line 3: broken with line 2 by 22784000000 | ~; 1000 4800 1000 ask 1000; 1010 4810 1100 take 9 1
# => line 3: broken with line 3 by 110 | ~; 1000 4800 1000 ask 1000; 1010 4810 1010 ask 900
# => line 3: broken with line 3 by 9 | ~; 1000 4800 1000 ask 1000; 1010 4810 1010 take 9 4800
# => line 4: broken with line 3 by 1 | ~; 1000 5000 1000 ask 1000; 1000 5000 1000 take 1 5001
1000 5000 1000 give 9 5000
# => line 3: absent | ~; 1000 4800 1000 ask 1000; 1200 5000 1200 take 2 5000
# the drift adds up over the lines => line 4: broken with line 2 by 256000000 | ~; 0 100 0 ask 0; 10 111 10 wall 10
20 122 20 wall 20 | > 3 none NoAnswer
# a reading is farther from the television's clock than the precision allows => line 3: broken with line 3 by 1
~; 1000 4800 1000 ask 1000; 1200 5000 1200 take 1 5002
# a reading of the companion falls, within its precision => line 3: broken with line 2 by 3
css-schedule 1 plain 0 -30 0 5 urn:x -; 1000 4800 1000 wall 1004; 1000 4800 1000 wall 1001 | > 2 none NoAnswer
# a reading of the television falls, within its precision => line 4: broken with line 3 by 2
css-schedule 1 plain 0 -28 0 0 urn:x -; 1000 4800 1000 ask 1000; 1000 4800 1000 take 1 4802; 1000 4800 1000 take 1 4800
# each end has an order of its own => done | ~; 0 0 9000 ask 9000; 0 0 9000 take 1 0; 0 0 9000 ask 9000
0 0 9000 give 1 0; 0 0 9000 wall 9000 | > 6 none NoAnswer
# the wall clock alone may be off by 1 percent => line 4: broken with line 2 by 256000000
css-schedule 1 plain 2560000 -30 0 0 urn:x -; % ask 0; 1000 1011 1000 ask 1000; 1000 1011 1002 ask 1002
# the companion's clock alone may => line 4: broken with line 2 by 256000000
css-schedule 1 plain 0 -30 2560000 0 urn:x -; % ask 0; 1000 1000 1011 ask 1011; 1000 1002 1011 ask 1011
# => line 6: absent | EXCHANGE; 1600 5400 1600 take 2 5400
# => line 6: absent | EXCHANGE; 1600 5400 1600 give 1 5400
# => line 6: absent | EXCHANGE; 1600 5400 1600 give 2 5400
# => line 6: absent | EXCHANGE; 1600 5400 1600 land 2 1600
# => line 6: broken with line 5 by 100 | EXCHANGE; 1500 5300 1500 wall 1500
# => line 6: broken with line 6 by 1 | EXCHANGE; 1600 5400 1600 land 1 1601
";

/// Such schedules of version 2. After a sleep the next reading is above the last one before, and the clock drifts from
/// the line of the sleep on. True time may not fall over a sleep, and the wall clock doesn't sleep.
pub const REFUSED_SECOND: &str = "\
# => line 8: broken with line 6 by 1 | ALONE; 1600 5400 1 1600 sleep; 1600 5400 1 1600 wall 1600
# => line 7: broken with line 3 by 102144000000 | ALONE; 2000 5800 1 1600 wall 1600
# => line 8: broken with line 7 by 25344000000 | ALONE; 2000 5800 1 1600 sleep; 2100 5900 1 1800 wall 1800
# => line 7: broken with line 6 by 100 | ALONE; 1500 5300 1 1600 sleep
# => line 7: broken with line 3 by 102144000000 | ALONE; 2000 5400 1 1600 sleep
# a datagram that answers another companion isn't there => line 8: absent | BOTH; 1600 5400 2 7600 land 1 7600
# the sleep of one leaves the other its answers => line 11: broken with line 10 by 100 | BOTH
1600 5400 1 1600 land 1 1600; 1600 5400 2 7600 sleep; 1600 5400 1 1600 wall 1600; 1500 5400 2 7600 sleep
> 10 wall 5197 5603 at 5400
# each has its own clock => line 9: broken with line 5 by 1535744000000 | BOTH; 1600 5400 1 1600 land 1 1600
1600 5400 2 1600 wall 1600
# each has one CII text in flight => line 14: absent | SESSIONS; 0 1000 2 0 text ts; 0 1000 1 0 text cii
0 1000 2 0 text cii; 0 1000 2 0 text cii
# => line 11: absent | SESSIONS; 0 1000 1 0 text ts
# => line 11: absent | SESSIONS; 0 1000 1 0 up ts
# => line 12: absent | SESSIONS; 0 1000 2 0 text cii; 0 1000 2 0 text cii
# => line 11: absent | SESSIONS; 0 1000 1 0 open cii
# the end of one session leaves the other's texts => line 13: absent | SESSIONS; 0 1000 1 0 close cii
0 1000 2 0 text cii; 0 1000 1 0 text cii
";

/// What happens at time 0, of which the last thing can't, or the player refuses it.
pub const AT_ONCE: &str = "\
# => line 3: absent | ~; % open cii; % open cii
# => line 4: absent | ~; % open ts; % close ts; % open ts
# => line 2: absent | ~; % text cii
# => line 4: absent | ~; % open cii; % text cii; % text cii
# => line 4: absent | ~; % open cii; % close cii; % text cii
# => line 3: absent | ~; % open ts; % text ts
# => line 2: absent | ~; % up ts
# => line 4: absent | ~; % open ts; % up ts; % up ts
# => line 4: absent | ~; % open ts; % close ts; % up ts
# => line 2: absent | ~; % present 0 minusinfinity 0 plusinfinity
# => line 2: absent | ~; % close cii
# => line 4: absent | ~; % open cii; % close cii; % close cii
# => line 2: no programme | ~; % change 0 1
# => line 2: no programme | ~; % speed 0 1
# => line 4: speed | ~; % programme dvb://1; % change 0 1; % speed 0 65
# => line 4: range | ~; % programme dvb://1; % change 0 1; % seek 0 100000000000000001
# => line 3: range | ~; % programme dvb://1; % timeline 1 a 1 1 100000000000000001
# => line 19: full | ~; % programme dvb://1; % timeline 1 a 1 1 0; % timeline 1 b 1 1 0; % timeline 1 c 1 1 0
% timeline 1 d 1 1 0; % timeline 1 e 1 1 0; % timeline 1 f 1 1 0; % timeline 1 g 1 1 0; % timeline 1 h 1 1 0
% timeline 1 i 1 1 0; % timeline 1 j 1 1 0; % timeline 1 k 1 1 0; % timeline 1 l 1 1 0; % timeline 1 m 1 1 0
% timeline 1 n 1 1 0; % timeline 1 o 1 1 0; % timeline 1 p 1 1 0; % timeline 1 q 1 1 0
";
