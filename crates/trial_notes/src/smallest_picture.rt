// The picture of one query over one chunk, worked out by hand from the rules.
pub(crate) const SMALLEST_PICTURE: &str =
    "<svg xmlns='http://www.w3.org/2000/svg' viewBox='0 0 9000 3040' width='900' font-family='sans-serif' font-size='120'>
<rect width='100%' height='100%' fill='#fff'/>
<text x='1000' y='280' font-size='180'>7 entries, 1 reads, 1 deliveries</text>
<linearGradient id='hues'><stop stop-color='hsl(40,60%,50%)'/><stop offset='.25' stop-color='hsl(100,60%,50%)'/><stop offset='.5' stop-color='hsl(160,60%,50%)'/><stop offset='.75' stop-color='hsl(220,60%,50%)'/><stop offset='1' stop-color='hsl(280,60%,50%)'/></linearGradient>
<text x='1000' y='520'>Colour: from chunk 0</text><rect x='2420' y='410' width='1000' height='130' fill='url(#hues)'/><text x='3480' y='520'>to chunk 0. A query is given a chunk of rows; a frame holds a piece of one.</text>
<text x='1000' y='710'>Lane of a worker: its queries, pale where they wait; above, loads that are planned; below, the chunks in its hands.</text>
<text x='1000' y='900'>Lane of a frame: a dark line while a piece is read (Fill to Filled), a bar while it stays. Red, and nothing else is: a load failed.</text>
<text x='960' y='2160' dy='115' text-anchor='end'>evictions</text>
<text x='1000' y='1090' fill='#5a6478'></text>
<g transform='translate(1000 2580)'><path stroke='#e0e0e0' stroke-width='6' d='M0 0V-880'/><text y='160' text-anchor='middle'>0</text></g>
<g transform='translate(0 1700)'><path stroke='#e0e0e0' stroke-width='6' d='M1000 0H8700'/><text x='960' y='225' text-anchor='end'>worker 0</text></g>
<g transform='translate(0 2420)'><path stroke='#e0e0e0' stroke-width='6' d='M1000 0H8700'/><text x='960' y='115' text-anchor='end'>frame 0</text></g>
<g transform='translate(1962 2580)'><path stroke='#e0e0e0' stroke-width='6' d='M0 0V-880'/><text y='160' text-anchor='middle'>1</text></g>
<g transform='translate(2925 2580)'><path stroke='#e0e0e0' stroke-width='6' d='M0 0V-880'/><text y='160' text-anchor='middle'>2</text></g>
<g transform='translate(3887 2580)'><path stroke='#e0e0e0' stroke-width='6' d='M0 0V-880'/><text y='160' text-anchor='middle'>3</text></g>
<g transform='translate(4850 2580)'><path stroke='#e0e0e0' stroke-width='6' d='M0 0V-880'/><text y='160' text-anchor='middle'>4</text></g>
<g transform='translate(5812 2580)'><path stroke='#e0e0e0' stroke-width='6' d='M0 0V-880'/><text y='160' text-anchor='middle'>5</text></g>
<g transform='translate(6775 2580)'><path stroke='#e0e0e0' stroke-width='6' d='M0 0V-880'/><text y='160' text-anchor='middle'>6</text></g>
<g transform='translate(7737 2580)'><path stroke='#e0e0e0' stroke-width='6' d='M0 0V-880'/><text y='160' text-anchor='middle'>7</text></g>
<rect x='1962' y='1700' width='5775' height='370' fill='#e2e5ea'><title>query 1 on worker 0, entries 1 to 7</title></rect>
<text x='1962' y='1700' dx='30' dy='100' fill='#303030'>query 1</text>
<rect x='5812' y='1930' width='963' height='140' fill='hsl(40,60%,50%)'><title>chunk 0 for query 1, entries 5 to 6</title></rect>
<text x='5812' y='1930' dx='30' dy='115' fill='#fff'>0</text>
<rect x='2925' y='1825' width='40' height='90' fill='hsl(40,60%,50%)'><title>load of chunk 0 for query 1, entry 2</title></rect>
<rect x='4850' y='2420' width='3850' height='140' fill='hsl(40,60%,50%)'><title>piece 0 in frame 0, entries 4 to 8, there at the end</title></rect>
<text x='4850' y='2420' dx='30' dy='115' fill='#fff'>0</text>
<rect x='3887' y='2470' width='963' height='40' fill='#4a5468'><title>piece 0 is read into frame 0, entries 3 to 4</title></rect>
<text x='4850' y='2580' dy='340' text-anchor='middle'>number of the entry in the story</text>
<text x='1000' y='1280' fill='#5a6478'>5 marks are drawn as 5: below 5 pixels, those that touch are one, grey where chunks differ.</text>
</svg>
";
